//! Sentences about what a service does that its status does not say.
ghost use Rattle.std.specs.Prelude.{◌≡◌, ◌++◌, codes, string_bytes, OnOk};
ghost use Rattle.cmd_why.specs.Courses.{course_sentence, time_of_course};

use cmd_svc::Course;
use std::alloc::{AllocError, Allocator};
use tai_status::Label;

/// Returns the time of what a service does, or another one if it has none.
pub(crate) fn time_of_course(course: &Course, other: &Label) -> Label
    ensures { result ≡ time_of_course course.now other.now }
{
    match course {
        Course::Ready(label) | Course::BackingOff(label) => *label,
        Course::Plain | Course::Finishing => *other,
    }
}

/// Writes words, a time and a full stop at the end of a text.
fn push_time<A: Allocator>(out: &mut String<A>, words: &str, time: &str) -> Result<(), AllocError>
    ensures { OnOk result (string_bytes out.new ≡ string_bytes out.old ++ words.now ++ time.now ++ codes ".") }
{
    out.push_str(words)?;
    out.push_str(time)?;
    out.push_str(".")
}

/// Writes the sentence about what a service does at the end of a text. `time` is the local time of it.
pub(crate) fn push_course<A: Allocator>(
    out: &mut String<A>,
    course: &Course,
    time: &str,
) -> Result<(), AllocError>
    ensures { OnOk result (string_bytes out.new ≡ string_bytes out.old ++ course_sentence course.now time.now) }
{
    match course {
        Course::Plain => Ok(()),
        Course::Ready(_) => push_time(out, " It has been ready since ", time),
        Course::Finishing => out.push_str(" Its finish runs."),
        Course::BackingOff(_) => {
            push_time(
                out,
                " Its processes end too often: the next start waits until ",
                time,
            )
        }
    }
}
