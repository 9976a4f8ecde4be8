//! The commands that rule the tracks of a Grid: its columns, across, and its rows, down.

ghost use Rattle.std.specs.Prelude.{◌≡◌, ◌≤◌, true, Some};
ghost use Rattle.std.specs.List.{list_all};
ghost use Rattle.std.specs.Option.{option_map};
ghost use Rattle.scene_model.specs.Tracks.{rules_of, rule_of};
ghost use Rattle.widget_model.specs.Rows.{IsIndex};
ghost use Rattle.widget_model.specs.Widgets.{IsGrid, edited, row_at, rows_of};
ghost use Rattle.widget_model.specs.Forest.{IsWidgets};
ghost use Rattle.widget_model.specs.Fitting.{fits_rules};
ghost use Rattle.desk_model.specs.Tracks.{step_track, with_rule};
ghost use Rattle.desk_commands.specs.Effects.{Did, TellsRows};
ghost use Rattle.desk_commands.specs.Tracks.{AnswersRuled};

use crate::answer::Answer;
use crate::lookup::find_kind;
use crate::ranges::unless_within;
use crate::rule_options::{rule_options_refusal, with_rule_options};
use cmd_words::{ConfigOption, Refusal};
use kind_core::{Kind, Name};
use scene_model::Axis;
use tree_core::{Id, Tree};

/// A Grid that may be ruled, and the number of its track.
#[derive(Clone, Copy)]
struct Ruled {
    id: Id,
    at: u32,
}

/// The Grid that the command rules, or the first refusal.
fn grid_to_rule(
    tree: &Tree,
    client: u32,
    name: &Name,
    index: i32,
    options: &[(ConfigOption, i32)],
) -> Result<Ruled, Refusal>
    ensures ruled { AnswersRuled tree.now client name.now index options.now result }
    ensures valid { IsWidgets tree.now }
{
    let id = match find_kind(tree, client, name, Kind::Grid) {
        Ok(id) => id,
        Err(refusal) => return Err(refusal),
    };
    match unless_within(1, 16, index) {
        Some(refusal) => return Err(refusal),
        None => {}
    }
    match rule_options_refusal(options) {
        Some(refusal) => return Err(refusal),
        None => {}
    }
    let at = index.unsigned_abs();
    Ok(Ruled { id, at })
}

/// The size and the weight of the Grid's track.
fn track_rule(tree: &Tree, ruled: Ruled, axis: Axis) -> (u32, u32)
    requires grid { IsGrid tree.now ruled.id.key }
    requires index { IsIndex ruled.at }
    ensures rule { option_map (λ row. rule_of (rules_of axis row) ruled.at) (row_at tree.now.entries ruled.id.key) ≡ Some result }
{
    match axis {
        Axis::Across => tree.column_rule(ruled.id, ruled.at),
        Axis::Down => tree.row_rule(ruled.id, ruled.at),
    }
}

/// Gives the Grid's track a size and a weight.
fn set_track_rule(tree: &mut Tree, ruled: Ruled, axis: Axis, rule: (u32, u32))
    requires grid { IsGrid tree.old ruled.id.key }
    requires index { IsIndex ruled.at }
    requires size { rule.0 ≤ 1024 }
    requires weight { rule.1 ≤ 1000 }
    ensures rule { tree.new ≡ edited ruled.id.key (with_rule axis ruled.at rule) tree.old }
    ensures valid { IsWidgets tree.new }
{
    match axis {
        Axis::Across => tree.set_column_rule(ruled.id, ruled.at, rule.0, rule.1),
        Axis::Down => tree.set_row_rule(ruled.id, ruled.at, rule.0, rule.1),
    }
}

/// `g.columnconfig(i, options)`, across, and `g.rowconfig(i, options)`, down
pub(crate) fn rule_track(
    tree: &mut Tree,
    axis: Axis,
    client: u32,
    name: &Name,
    index: i32,
    options: &[(ConfigOption, i32)],
) -> Answer
    requires { list_all fits_rules (rows_of tree.old) ≡ true }
    ensures did { Did (λ desk. step_track axis desk client name.now index options.now) tree.old tree.new result.reply }
    ensures tells { TellsRows tree.old tree.new result.changed }
    ensures valid { IsWidgets tree.new }
{
    let ruled = match grid_to_rule(tree, client, name, index, options) {
        Ok(ruled) => ruled,
        Err(refusal) => return Answer::refused(refusal),
    };
    let before = track_rule(tree, ruled, axis);
    let rule = with_rule_options(options, before);
    set_track_rule(tree, ruled, axis, rule);
    Answer::done(before != track_rule(tree, ruled, axis))
}
