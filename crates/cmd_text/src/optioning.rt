//! The options of a command.
ghost use Rattle.std.specs.Prelude.{◌≡◌, ◌-◌, ◌<◌, ◌≤◌, [], ◌∷◌, length};
ghost use Rattle.cmd_text.specs.Reading.{Gives, skip_at};
ghost use Rattle.cmd_text.specs.ReadingOptions.{sopt_at, popt_at, copt_at, option_comes, pushed_at, more_at, options_at};

use crate::picking::{attr, config_option, place_option};
use crate::reading::{begins, expect, number, skip, skip_some, value};
use cmd_words::{ConfigOption, Options, PlaceOption};
use kind_core::{Attr, Value};

/// An option that is read as a `-`, a word and a value.
pub(crate) trait Readable: Default + Copy {
    ghost use Rattle.std.specs.Prelude.{List, ℕ, Result};
    ghost use Rattle.cmd_text.specs.Reading.{Gives};

    ghost one_at: { List ℕ → Result (Self × List ℕ) ℕ };

    fn read(bytes: &[u8]) -> Result<(Self, &[u8]), usize>
        ensures { Gives (λ x. (x.0, x.1.now)) result (one_at bytes.now) };
}

impl Readable for (Attr, Value) {
    ghost one_at = { sopt_at };

    #[tactic(auto, unfolding(crate::specs::ReadingOptions::sopt_at))]
    fn read(bytes: &[u8]) -> Result<(Self, &[u8]), usize> {
        let rest = expect(b"-", bytes)?;
        let (which, rest) = attr(rest)?;
        let rest = skip_some(rest)?;
        match value(rest) {
            Ok((what, rest)) => Ok(((which, what), rest)),
            Err(left) => Err(left),
        }
    }
}

impl Readable for (PlaceOption, i32) {
    ghost one_at = { popt_at };

    #[tactic(auto, unfolding(crate::specs::ReadingOptions::popt_at))]
    fn read(bytes: &[u8]) -> Result<(Self, &[u8]), usize> {
        let rest = expect(b"-", bytes)?;
        let (which, rest) = place_option(rest)?;
        let rest = skip_some(rest)?;
        let (what, rest) = number(rest)?;
        Ok(((which, what), rest))
    }
}

impl Readable for (ConfigOption, i32) {
    ghost one_at = { copt_at };

    #[tactic(auto, unfolding(crate::specs::ReadingOptions::copt_at))]
    fn read(bytes: &[u8]) -> Result<(Self, &[u8]), usize> {
        let rest = expect(b"-", bytes)?;
        let (which, rest) = config_option(rest)?;
        let rest = skip_some(rest)?;
        let (what, rest) = number(rest)?;
        Ok(((which, what), rest))
    }
}

/// Whether another option comes: spaces, which `after` is behind, and a `-`.
fn another(bytes: &[u8], after: &[u8]) -> bool
    requires { after.now ≡ skip_at bytes.now }
    ensures { result ≡ option_comes bytes.now }
{
    begins(b' ', bytes) && begins(b'-', after)
}

/// Reads one option to the end of the list.
fn push_read<'a, T: Readable>(list: &mut Options<T>, bytes: &'a [u8]) -> Result<&'a [u8], usize>
    requires { length list.old < 8 }
    ensures { Gives (λ x. (list.new, x.now)) result (pushed_at T.one_at list.old bytes.now) }
{
    let (option, rest) = T::read(bytes)?;
    list.push(option);
    Ok(rest)
}

/// The options that follow those of `list`, while there is room for them, and the spaces after the last.
fn more<T: Readable>(mut list: Options<T>, bytes: &[u8]) -> Result<(Options<T>, &[u8]), usize>
    requires { length list ≤ 8 }
    ensures { Gives (λ x. (x.0, x.1.now)) result (more_at T.one_at (8 - length list) list bytes.now) }
{
    let mut rest = bytes;
    loop {
        let after = skip(rest);
        if list.is_full() {
            return Ok((list, after));
        }
        if !another(rest, after) {
            return Ok((list, after));
        }
        match push_read(&mut list, after) {
            Ok(next) => rest = next,
            Err(left) => return Err(left),
        }
    }
}

/// 1 to 8 options with spaces between them, and the spaces after the last.
#[tactic(auto, unfolding(crate::specs::ReadingOptions::options_at))]
pub(crate) fn options<T: Readable>(bytes: &[u8]) -> Result<(Options<T>, &[u8]), usize>
    ensures { Gives (λ x. (x.0, x.1.now)) result (options_at T.one_at bytes.now) }
{
    let (first, rest) = T::read(bytes)?;
    let mut list = Options::new();
    list.push(first);
    more(list, rest)
}
