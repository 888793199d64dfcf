// What is true after any list of calls.
ghost use Rattle.counting.specs.Runs.{HandlesOnce, ReadsBack};

// A handle once given is never given again, and a set reads back what was last validly written to each of its elements.
pub fn runs_are_lawful()
    ensures handles { HandlesOnce }
    ensures reading { ReadsBack }
{}
