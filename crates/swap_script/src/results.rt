ghost use Rattle.swap_script.specs.ResultRows.{ResultRows};

/// Lines by hand of the events that no script has yet.
pub fn result_rows()
    ensures { ResultRows }
{}
