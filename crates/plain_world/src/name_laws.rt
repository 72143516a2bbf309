//! Laws of names. Each function does nothing; its contract is the law.

ghost use Rattle.plain_world.specs.Proved.NameLaws.{LinkNames, UnlinkNames, RenameNames, RenameOfOneFile};

/// A link makes both names lead to one file, and leaves every other name (page of link).
pub fn link_names()
    ensures { LinkNames }
{}

/// An unlink takes just its name away; every file and open file description is as it was, until the sweep (page of unlink).
pub fn unlink_names()
    ensures { UnlinkNames }
{}

/// A rename lets the new name lead where the old one led, takes the old one away, and leaves every other name; where both lead to
/// one file, it changes nothing (page of rename).
pub fn rename_names()
    ensures names { RenameNames }
    ensures same { RenameOfOneFile }
{}
