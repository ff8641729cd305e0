ghost use Rattle.std.specs.Prelude.{◌≡◌, ◌≢◌, List, None};
ghost use Rattle.task_code.specs.Acts.{Ending};
ghost use Rattle.task_code.specs.Codes.{Plan};
ghost use Rattle.task_walk.specs.Deeds.{Deeds};
ghost use Rattle.task_run.specs.Stores.{Left, Journals, Follows, AreAlike, left_objects, journal_objects, run_over};
ghost use Rattle.task_run.specs.Events.{CameTo, Grew, gained, lines_in, nothing};
ghost use Rattle.task_walk.specs.Comings.{Event, Told, Does, after, asked_in};
ghost use Rattle.task_walk.specs.Tales.{Teller};

/// A run over what is left of entries and numbers, which go on legally where the journals end, is the run over the
/// journals, and these take what it used up. The function computes nothing; its contract is the fact.
#[tactic(auto, using(crate::proofs::TwoStores::two_stores))]
pub fn stores_are_alike()
    ensures { (teller : Teller) (plan : Plan) (act : Deeds) (left : Left) (journals : Journals) →
        Follows teller left journals → (run_over left_objects plan act left).came ≢ None →
        AreAlike (run_over left_objects plan act left) (run_over (journal_objects teller) plan act journals)
        left journals }
{}

/// What a walk did is the run over what its world gained: it prints the lines and asks the operations that the walk
/// did, comes to its end, and leaves nothing. The function computes nothing; its contract is the fact.
#[tactic(auto, using(crate::proofs::EventRuns::deeds_run))]
pub fn what_was_done_is_the_run()
    ensures { (deeds : Deeds) (events : List Event) (ending : Ending (Unit {0})) (old new : Told) →
        Does old.world.by.plan deeds events ending tt → new ≡ after events old →
        CameTo (run_over left_objects old.world.by.plan deeds (gained old.world new.world)) ending tt
        (lines_in events) (asked_in events) nothing }
{}

/// Whatever a walk did, its world only grew. The function computes nothing; its contract is the fact.
pub fn what_was_done_is_added()
    ensures { (events : List Event) (old new : Told) → new ≡ after events old → Grew old new }
{}
