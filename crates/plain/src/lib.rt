//! The definitions that everything is proved against, and their laws: each law is the contract of a function.
#![tactic(auto)]

ghost use Rattle.plain.specs.Example.{ShoppingListStands};
ghost use Rattle.plain.specs.Numbered.{StaysNumbered};
ghost use Rattle.plain.specs.Promise.{AllOrNone, FastenedStays, MarksStay, MovedSame, ShownSame, StaysFair, UndoneRight};
ghost use Rattle.plain.specs.Weight.{PutWeight, PutWeightBack, ZeroDiffers};

/// No line's id is there twice, and the current line is no more than there are.
pub fn stays_fair()
    ensures { StaysFair }
{}

/// Ids and the next id are at least 1.
pub fn stays_numbered()
    ensures { StaysNumbered }
{}

/// What was changed and taken back is as it was, and done again as it was then.
pub fn undone_right()
    ensures { UndoneRight }
{}

/// Moving loses no line and makes none, and those that aren't moved stay in their order.
pub fn moved_same()
    ensures { MovedSame }
{}

/// A refused command changes nothing.
pub fn all_or_none()
    ensures { AllOrNone }
{}

/// A command that shows changes no line.
pub fn shown_same()
    ensures { ShownSame }
{}

/// A mark stays at its line, wherever that goes.
pub fn marks_stay()
    ensures { MarksStay }
{}

/// What was fastened stays, whatever a stop leaves of later records and of the other tape.
pub fn fastened_stays()
    ensures { FastenedStays }
{}

/// What a stand weighs beside the one that comes of it by putting new lines in place of some.
pub fn put_weight()
    ensures { PutWeight }
{}

/// The same the other way round, as after it is undone.
pub fn put_weight_back()
    ensures { PutWeightBack }
{}

/// Why the weight of a splice is stated for ids of at least 1: a line with the id 0 would count as none.
pub fn zero_differs()
    ensures { ZeroDiffers }
{}

/// A day with a shopping list shows and refuses what is listed, and leaves 4,807 bytes to be kept.
pub fn shopping_list_stands()
    ensures { ShoppingListStands }
{}
