//! What is true for the definitions alone, for readers. The function does nothing: its contract is the law.
ghost use Rattle.cmd_wait.specs.Finding.{AnotherIsSeen, ReadyIsSaid, UpLasts};

/// States that a look which finds a service up saw a record that says so, and that the process of this record lived,
/// and had lived for two seconds. A service whose processes end sooner therefore never counts as up, however often it
/// is looked at.
pub fn no_crash_loop_is_up()
    ensures { UpLasts }
{}

/// States that a look which finds a service restarted saw it up so, with another process than the one of its mark. A
/// restart is therefore not over while the process of the first look is what is seen.
pub fn no_old_process_ends_a_restart()
    ensures { AnotherIsSeen }
{}

/// States that a look which finds a service ready saw a text of svscan that says so of the very process of the record,
/// and that this process lived.
pub fn ready_is_of_the_process()
    ensures { ReadyIsSaid }
{}
