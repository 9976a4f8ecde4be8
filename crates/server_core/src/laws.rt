//! Laws of the machine, over the definitions alone. Each is a function without parameters whose contract is
//! the law. docs/MACHINE.md reads them in prose.

ghost use Rattle.server_core.specs.Laws.{ColoursAgreeOutsideTheReach, NothingIsReachedWithoutAChange, BeatsChangeOnlyTheirBands, BandsFitTheirShares, OpeningIsValid, StepsKeepStatesValid, OnlyTicksDraw, TicksCleanAChosenSet, CleanStatesShowThePicture, EventsHaveAnswers, EventsHaveARun, RunsJoin, RunsKeepStatesValid, TicksKeepTheBudget, PeriodsAreDrawn, TicksLeaveFewer, EnoughTicksDrawAfresh, RunsKeepTheLaws};

/// Between any two desks of one shape, for which all holds that always holds of a desk, no pixel outside the reach of the
/// change has another colour.
pub fn colours_agree_outside_the_reach()
    ensures { ColoursAgreeOutsideTheReach }
{}

/// Where a desk stays as it is, nothing is reached.
pub fn nothing_is_reached_without_a_change()
    ensures { NothingIsReachedWithoutAChange }
{}

/// A beat changes colours only in the bands that it draws.
pub fn a_beat_changes_only_its_bands()
    ensures { BeatsChangeOnlyTheirBands }
{}

/// The bands of a beat have at most as many pixels of the screen as the shares of the admitted VScreens are together, and
/// those leave the spare of the budget.
pub fn bands_fit_their_shares()
    ensures { BandsFitTheirShares }
{}

/// The state at opening is valid.
pub fn the_opening_state_is_valid()
    ensures { OpeningIsValid }
{}

/// Each step from a valid state leads to a valid one: between any two events all that holds of a desk holds, and
/// each pixel is dirty or right.
pub fn each_step_keeps_the_state_valid()
    ensures { StepsKeepStatesValid }
{}

/// Only a tick draws: any other event leaves the screen as it was.
pub fn only_ticks_draw()
    ensures { OnlyTicksDraw }
{}

/// What a tick cleaned is a set of dirty pixels, as many as there is room for, and it drew them and the bands
/// alone.
pub fn each_tick_cleans_a_chosen_set()
    ensures { TicksCleanAChosenSet }
{}

/// Where nothing is dirty the screen is the desk drawn afresh.
pub fn a_clean_state_shows_the_picture()
    ensures { CleanStatesShowThePicture }
{}

/// From each valid state each event that can come has an answer and a state after it.
pub fn each_event_has_an_answer()
    ensures { EventsHaveAnswers }
{}

/// From each valid state each list of events that can come has a run.
pub fn each_list_of_events_has_a_run()
    ensures { EventsHaveARun }
{}

/// Two runs, the second from where the first ends, are one.
pub fn runs_join()
    ensures { RunsJoin }
{}

/// A run from a valid state ends in a valid one.
pub fn every_run_keeps_the_state_valid()
    ensures { RunsKeepStatesValid }
{}

/// In every run from a valid state no tick writes more pixels than the budget.
pub fn no_tick_writes_more_than_the_budget()
    ensures { TicksKeepTheBudget }
{}

/// In every run from a valid state each period of an admitted VScreen draws each pixel of its film once, from the frame that
/// was the newest when the period began.
pub fn each_period_draws_one_frame()
    ensures { PeriodsAreDrawn }
{}

/// From a valid state n undisturbed ticks leave at most the dirty pixels less n times the spare.
pub fn undisturbed_ticks_leave_fewer()
    ensures { TicksLeaveFewer }
{}

/// From a valid state the screen is the desk drawn afresh after `ceil(dirty/spare)` undisturbed ticks, or more.
pub fn enough_ticks_draw_the_desk_afresh()
    ensures { EnoughTicksDrawAfresh }
{}

/// In every run from a valid state all of them hold: the budget, the periods, and wherever only ticks happen for a while
/// the screen comes right.
pub fn every_run_keeps_the_laws()
    ensures { RunsKeepTheLaws }
{}
