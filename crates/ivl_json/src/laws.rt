//! The laws of reading and writing. Each function here does nothing: its contract is the law.
ghost use Rattle.std.specs.Prelude.{◌≢◌, ℤ, List, Err};
ghost use Rattle.serde_json.specs.Data.{Data};
ghost use Rattle.ivl_laws.specs.Sets.{IsBetween, IsSubset, SameMembers};
ghost use Rattle.ivl_laws.specs.Runs.{Covers, IsRunListIn, IsRunsOf};
ghost use Rattle.ivl_json.specs.Reading.{Reads, interval_read};
ghost use Rattle.ivl_json.specs.SetReading.{SetReads, set_read};
ghost use Rattle.ivl_json.specs.Writing.{interval_json, set_json};
ghost use Rattle.ivl_json.specs.declared.faults.ItemFault.{ItemFault};
ghost use Rattle.ivl_json.specs.declared.faults.JsonFault.{JsonFault};

use ivl_set_laws::sets::NumberSet;

/// The JSON of an interval of the range reads as its members.
pub fn interval_reads_back()
    ensures { (whole p : ℤ × ℤ) → IsSubset (IsBetween p) (IsBetween whole) → Reads whole (interval_json p) (IsBetween p) }
{}

/// The JSON of the runs of a set of the range reads as that set.
pub fn set_reads_back<S: NumberSet>()
    ensures { (whole : ℤ × ℤ) (L : List (ℤ × ℤ)) → IsRunsOf L S.members → IsSubset S.members (IsBetween whole) → SetReads whole (set_json L) S.members }
{}

/// A maximal list of runs in the range reads back from its JSON as its members.
pub fn runs_read_back()
    ensures { (whole : ℤ × ℤ) (L : List (ℤ × ℤ)) → IsRunListIn whole L → SetReads whole (set_json L) (Covers L) }
{}

/// A value reads as at most one interval, and if it does, it is not refused and is in the range.
pub fn intervals_are_read_one_way<S: NumberSet, T: NumberSet>()
    ensures one { (whole : ℤ × ℤ) (d : Data) → Reads whole d S.members → Reads whole d T.members → SameMembers S.members T.members }
    ensures not_refused { (whole : ℤ × ℤ) (d : Data) (fault : ItemFault) → Reads whole d S.members → interval_read whole d ≢ Err fault }
    ensures in_range { (whole : ℤ × ℤ) (d : Data) → Reads whole d S.members → IsSubset S.members (IsBetween whole) }
{}

/// A value reads as at most one set, and if it does, it is not refused and is in the range.
pub fn sets_are_read_one_way<S: NumberSet, T: NumberSet>()
    ensures one { (whole : ℤ × ℤ) (d : Data) → SetReads whole d S.members → SetReads whole d T.members → SameMembers S.members T.members }
    ensures not_refused { (whole : ℤ × ℤ) (d : Data) (fault : JsonFault) → SetReads whole d S.members → set_read whole d ≢ Err fault }
    ensures in_range { (whole : ℤ × ℤ) (d : Data) → SetReads whole d S.members → IsSubset S.members (IsBetween whole) }
{}
