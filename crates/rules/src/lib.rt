//! The rules of play as definitions, each theorem on them the contract of a function.
#![tactic(auto)]

ghost use Rattle.arithmetic.specs.Meaning.{Meaning};
ghost use Rattle.rules.specs.Stepping.{TakesTheSteps, OneStep};
ghost use Rattle.rules.specs.Worked.{Spelled, Worked};
ghost use Rattle.rules.specs.Ranges.{OrderGoesOneWay, FullPlaysHaveAList, FullPlaysAreCounted};
ghost use Rattle.rules.specs.Outcomes.{GamesComeOut, VerdictIsRight};
ghost use Rattle.rules.specs.Texts.{WorkedLibrariesMount};
ghost use Rattle.rules.specs.Mounting.{MountingIsPlayable};
ghost use Rattle.rules.specs.Endings.{PlayableComesToAnEnd};
ghost use Rattle.rules.specs.Laws.{FullPlaysAreListed, AtMostStepsMoves, LosingIsFull, MovesDetermineThePlay, FullPlaysAreInOrder, PlayableIsNeverStuck, PlayableHasFewNames, PlaysExtend, ListingsTellPlays};

/// The stepping function takes exactly the steps of the rules, and there is at most one step.
pub fn steps_are_determined()
    ensures takes_the_steps { (meaning : Meaning) → TakesTheSteps meaning }
    ensures one_step { (meaning : Meaning) → OneStep meaning }
{}

/// The worked plays come out as they should, by the definitions.
pub fn worked_plays_hold()
    ensures spelled { Spelled }
    ensures worked { Worked }
{}

/// The computed list of full plays holds exactly the full plays.
pub fn full_plays_are_listed()
    ensures exactly_the_full_plays { FullPlaysAreListed }
{}

/// A play has at most as many host moves as steps are allowed, and a losing play is full.
pub fn plays_are_bounded()
    ensures at_most_steps_moves { AtMostStepsMoves }
    ensures losing_is_full { LosingIsFull }
{}

/// A play's moves determine what passes, how it ends, and after how many steps.
pub fn moves_determine_the_play()
    ensures one_play_for_each_list_of_moves { MovesDetermineThePlay }
{}

/// The computed list of full plays is in order and without repetition, so that its length counts the full plays.
pub fn full_plays_are_in_order()
    ensures in_order_without_repetition { FullPlaysAreInOrder }
{}

/// A mounted library all of whose numbers are lawful is never stuck, and has at most 65,535 names.
pub fn libraries_are_never_stuck()
    ensures each_run_ends_or_goes_on { PlayableIsNeverStuck }
    ensures few_names { PlayableHasFewNames }
{}

/// Every play extends to a full play.
pub fn plays_extend()
    ensures each_play_extends_to_a_full_one { PlaysExtend }
{}

/// Two plays with the same listing are the same play.
pub fn listings_tell_plays()
    ensures one_play_for_each_listing { ListingsTellPlays }
{}

/// A game whose rows mount, whose numbers are lawful and whose arithmetic keeps its laws can be played.
pub fn mounting_is_playable()
    ensures each_mounted_game_is_playable { MountingIsPlayable }
{}

/// Wherever a run of a game that can be played leads, the play comes to one of its endings without a further move of the host's.
pub fn plays_come_to_an_end()
    ensures each_run_comes_to_an_end { PlayableComesToAnEnd }
{}

/// The order of plays goes one way, and places in a list of all full plays count them, also those in a range.
pub fn full_plays_are_counted()
    ensures one_way { OrderGoesOneWay }
    ensures all_in_order { FullPlaysHaveAList }
    ensures counted_by_place { FullPlaysAreCounted }
{}

/// Each game comes out safe, or lost at its first losing play, and the computed verdict tells which.
pub fn games_come_out()
    ensures safe_or_lost { GamesComeOut }
    ensures verdict_is_right { VerdictIsRight }
{}

/// The text of each worked library is read as its rows, and these mount.
pub fn worked_libraries_mount()
    ensures read_and_mounted { WorkedLibrariesMount }
{}
