//! Laws of the definitions. The functions do nothing: their postconditions hold of all values.
ghost use Rattle.std.specs.Prelude.{◌≡◌, ◌<◌, false};
ghost use Rattle.sftp_model.specs.declared.slot.Site.{Site};
ghost use Rattle.plan_model.specs.Moves.{Answers};
ghost use Rattle.sftp_core.specs.Core.{Core};
ghost use Rattle.sftp_fs.specs.ListingPlans.{IsPlanned, ListingProgress, TellsListing};
ghost use Rattle.sftp_fs.specs.Listings.{ListingAnswer, GivesEntries, ListingValue};

/// A poll of a listing that has not ended makes the next move of a lane's listing, for any bound on its READDIRs that
/// is not reached. The entries that are returned one by one are those with which it ends.
#[tactic(auto, using(crate::proofs::ListingLaws::planned))]
pub fn listings_are_planned()
    ensures { (s : ListingProgress) (site : Site) (p q : ListingValue) (old new : Core) (answers : Answers) (result : ListingAnswer)
        → p.ended ≡ false → 0 < s.bound → TellsListing s old answers p.asked → GivesEntries old new p q result
        → IsPlanned s site p q answers result }
{}
