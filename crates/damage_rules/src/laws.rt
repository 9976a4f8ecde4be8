//! Laws of the reach. Each function does nothing; its contract is the law. The rules are in docs/MACHINE.md, "The
//! reach of a change".

ghost use Rattle.damage_rules.specs.Numbering.{ReachByNumbers, NothingOfOtherNumbers, ReachIsTheirUnion};
ghost use Rattle.damage_rules.specs.Views.{ReachOfViews};
ghost use Rattle.machine_model.specs.DamageKeys.{ReachIsByKeys};
ghost use Rattle.machine_model.specs.DamageLaws.{SameOutsideReach};
ghost use Rattle.machine_model.specs.DeskDamage.{DesksSameOutsideReach};

/// Between two scenes of one size each pixel outside the reach has the same colour in both.
pub fn same_outside_the_reach()
    ensures { SameOutsideReach }
{}

/// The same of two desks of one shape for which all holds that always holds of a desk.
pub fn desks_same_outside_the_reach()
    ensures { DesksSameOutsideReach }
{}

/// The reach is what all widgets together give it, each one its shown areas where the reach names it.
pub fn reach_is_by_keys()
    ensures { ReachIsByKeys }
{}

/// Where two shots are those of two scenes under one numbering of their widgets, and the touched looks those that
/// differ: what `reach` answers of a number are the areas that its widget gives the reach; of a number that no widget
/// has it answers none; and all of them together are the reach.
pub fn reach_by_numbers()
    ensures each { ReachByNumbers }
    ensures others { NothingOfOtherNumbers }
    ensures together { ReachIsTheirUnion }
{}

/// Between two views of one screen size, where no number passes from one widget to another: with the shot of each and the
/// numbers of the looks that differ, a pixel is in the reach exactly where `reach` gives it of one of all 2,048 numbers.
pub fn reach_of_views()
    ensures { ReachOfViews }
{}
