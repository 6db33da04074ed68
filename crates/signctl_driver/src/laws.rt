//! What holds of every command's output, as the contract of a call that does nothing.
ghost use Rattle.signctl_driver.specs.Law.{OutputOfMoreStartsTheSame};

/// What is answered before a read fails stays right, whatever bytes would have followed.
pub fn output_of_more_starts_the_same<Item, Cause>()
    ensures { OutputOfMoreStartsTheSame Item Cause }
{}
