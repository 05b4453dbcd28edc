//! Laws of the objects of placed runs.

ghost use Rattle.placed_objects.specs.Extents.{ExtentsStayApart};
ghost use Rattle.placed_objects.specs.Members.{MembersAreExact};

/// At each moment of a run of a sound program under a legal map no two objects that are alive have a byte in common,
/// padding included, and none has one of the text, of the table or of what the frames of the calls in progress save.
pub fn extents_stay_apart()
    ensures { ExtentsStayApart }
{}

/// A pointer to a member of a struct or union that is properly aligned, narrowed to the member, has exactly the bytes
/// that the member owns.
pub fn members_are_exact()
    ensures { MembersAreExact }
{}
