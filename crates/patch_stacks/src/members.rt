//! What is known of the members of a block's records.
ghost use Rattle.std.specs.Prelude.{◌≡◌};
ghost use Rattle.patch_stacks.specs.Members.{no_members, with_member, in_disorder, joined, are_below};

use patch_model::PatchNo;

/// Whether the members of the records are known to be apart: no number is a member of two records, and none is above the
/// newest. Whether the names of the records are known to rise with their places. And a number below which each member is known to be
/// the name of its record. Of three records, of which the second was made of 3 and 7:
///
///     1  3    5    their names, which rise
///     1  3 7  5    their members, which are apart; the newest is 7
///     1  3    5    each member below 7 is a name, so `others_from` is 7
#[derive(Clone, Copy)]
pub(crate) struct Members {
    pub(crate) are_apart: bool,
    pub(crate) are_rising: bool,
    pub(crate) others_from: u32,
    pub(crate) newest: PatchNo,
}

impl Members {
    pub(crate) fn none() -> Members
        ensures { result ≡ no_members }
    {
        Members {
            are_apart: true,
            are_rising: true,
            others_from: u32::MAX,
            newest: PatchNo(0),
        }
    }

    /// With a record more, whose one member is this; it may be the only record.
    pub(crate) fn with(self, no: PatchNo, is_only: bool) -> Members
        ensures { result ≡ with_member self no is_only }
    {
        let is_next = is_only || (self.are_apart && self.newest < no);
        Members {
            are_apart: is_next,
            are_rising: is_next && (is_only || self.are_rising),
            others_from: if is_only { u32::MAX } else { self.others_from },
            newest: no,
        }
    }

    /// Whether the number is known to be above all of them.
    pub(crate) fn are_below(self, no: PatchNo) -> bool
        ensures { result ≡ are_below self no }
    {
        self.are_apart && self.newest < no
    }

    /// With a record moved below others.
    pub(crate) fn in_disorder(self) -> Members
        ensures { result ≡ in_disorder self }
    {
        Members {
            are_apart: self.are_apart,
            are_rising: false,
            others_from: self.others_from,
            newest: self.newest,
        }
    }

    /// With two records as one, of whose names this is the greater, if it has their members alone and the lesser name.
    pub(crate) fn joined(self, is_of_both: bool, greater: PatchNo) -> Members
        ensures { result ≡ joined self is_of_both greater }
    {
        Members {
            are_apart: self.are_apart && is_of_both,
            are_rising: self.are_rising && is_of_both,
            others_from: if is_of_both {
                self.others_from.min(greater.0)
            } else {
                0
            },
            newest: self.newest,
        }
    }
}
