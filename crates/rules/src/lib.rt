// The rules of the twelve calls are in specs/: the state, one step for each call, the book that is read off calls and answers,
// and the promise on every list of calls. Each function here names a theorem in its contract, so that its proof is asked for.
#![tactic(auto)]

ghost use Rattle.rules.specs.Excluded.{AnswersInTurn, ShutOut};
ghost use Rattle.rules.specs.Landings.{LandingLists};
ghost use Rattle.rules.specs.Laws.{RefusalsLeave, HandlerCounts, CatchesOrdered, RoomKept, BoundsKept};
ghost use Rattle.rules.specs.Promise.{PromiseKept};
ghost use Rattle.rules.specs.Refusals.{RefusalsListed};
ghost use Rattle.rules.specs.Worked.{WorkedRuns};

// Every run of the rules keeps the promise.
pub fn promise_holds()
    ensures { PromiseKept }
{}

// A landing list has just the entries that it should have, from the top down.
pub fn landing_lists()
    ensures { LandingLists }
{}

// A refused call leaves the whole state as it was.
pub fn refusals_leave_all()
    ensures { RefusalsLeave }
{}

// A call is refused exactly where a cause is listed, with the smallest number of its causes.
pub fn refusals_listed()
    ensures { RefusalsListed }
{}

// The handler counts that begin and end answer.
pub fn handler_counts()
    ensures { HandlerCounts }
{}

// After any list of calls, the catches are ordered by frame.
pub fn catches_ordered()
    ensures { CatchesOrdered }
{}

// A raise finds room for its catch when it reaches its handler: at no time are more than 32 open.
pub fn room_for_catches()
    ensures { RoomKept }
{}

// After any list of calls, there are at most 64 frames, 16 uncollected exceptions and 32 open catches.
pub fn limits_hold()
    ensures { BoundsKept }
{}

// What the promise shuts out: in every run an answer out of turn, and sample runs that go wrong.
pub fn wrong_runs_excluded()
    ensures in_turn { AnswersInTurn }
    ensures samples { ShutOut }
{}

// Worked runs, computed from the rules.
pub fn worked_runs()
    ensures { WorkedRuns }
{}
