//! The members of a group that joined, as their marks.
ghost use Rattle.std.specs.Prelude.{◌≡◌, [], IfOk, OnErr};
ghost use Rattle.hy_group.specs.Joining.{IsJoin, IsMemberJoin, IsMateOf};

use hy_base::Clash;
use hy_mark::Marks;
use hy_meld::check_writes;
use std::alloc::{AllocError, Global};
use std::marker::Model;

/// The members of a group that joined, seen as the marks of them all.
#[derive(Drop)]
pub struct Group {
    marks: Marks,
}

impl Model for Group {
    ghost use Rattle.hy_base.specs.Marks.{MarkSet};

    ghost Value = { MarkSet };

    ghost view = { λ g. g.marks };
}

/// What becomes of a member.
#[derive(Clone, Copy)]
pub enum Join {
    /// It joined.
    Joined,
    /// It is dropped for an earlier member: the least key that the member touches and that one writes, and its position.
    Mate(Clash),
}

impl Group {
    /// No member has joined.
    pub fn new(alloc: Global) -> Group
        ensures { result ≡ record { pairs = []; writes = [] } }
    {
        Group {
            marks: Marks::new(alloc),
        }
    }

    /// The marks of the members that joined: of each key the lesser dependency, and their writes.
    pub fn marks(&self) -> &Marks
        ensures { result.now ≡ self.now }
    {
        &self.marks
    }

    /// The marks of the members that joined, taken out of the group.
    pub fn into_marks(self) -> Marks
        ensures { result ≡ self }
    {
        self.marks
    }

    /// A member joins, unless the members that joined write a key past what its marks know of it. `AllocError` where
    /// memory runs out. The group is as it was where the member did not join.
    pub fn join(&mut self, alloc: Global, marks: Marks) -> Result<Join, AllocError>
        ensures decided { IfOk result (λ join. IsJoin self.old marks join self.new) }
        ensures member { IfOk result (λ join. IsMemberJoin self.old marks join self.new) }
        ensures mate { IfOk result (IsMateOf self.old marks) }
        ensures err { OnErr result (self.new ≡ self.old) }
    {
        if let Some(clash) = check_writes(&self.marks, &marks) {
            return Ok(Join::Mate(clash));
        }
        let both = self.marks.merge(alloc, marks)?;
        self.marks = both;
        Ok(Join::Joined)
    }
}
