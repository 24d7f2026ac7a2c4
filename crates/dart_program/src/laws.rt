//! What holds of programs that are loaded. Each function does nothing: its contract is the law.
ghost use Rattle.dart_program.specs.Loading.{LoadedArePrograms};

/// What is loaded is a program: it has two files at least, and its links lead to files that it has.
pub fn loaded_are_programs()
    ensures { LoadedArePrograms }
{}
