// What tests assert, as functions: the text of a macro is proved anew wherever it stands.
ghost use Rattle.std.specs.Prelude.{IsTrue};

use std::fmt::Debug;
use std::process::Abort;

/// It is so.
pub fn assert_that(rt: &impl Abort, is_so: bool)
    ensures { IsTrue is_so }
{
    assert!(rt; is_so);
}

/// It is so, at this case.
pub fn assert_that_at<P: Debug + Drop>(rt: &impl Abort, is_so: bool, at: P)
    ensures { IsTrue is_so }
{
    assert!(rt; is_so, "at {at:?}");
}

/// Both are the same.
pub fn assert_same<T: PartialEq + Debug + Drop>(rt: &impl Abort, found: T, wanted: T) {
    assert_eq!(rt; found, wanted);
}
