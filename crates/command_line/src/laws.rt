//! Laws of words, over the definitions alone. Each is a function without parameters whose contract is the law.
ghost use Rattle.command_line.specs.Law.{OrdersAreWithin, PlainFormsSpell, SpelledWordsOrder};

/// The plain form gives each option once.
pub fn plain_forms_spell()
    ensures { PlainFormsSpell }
{}

/// A command with each of its options once, in any order, orders what it spells: `clap` takes it, and its matches are
/// that order.
pub fn spelled_words_order()
    ensures { SpelledWordsOrder }
{}

/// The numbers of what is ordered are in their ranges.
pub fn orders_are_within()
    ensures { OrdersAreWithin }
{}
