//! What a grade says of every run, as contracts of functions that do nothing.

ghost use Rattle.dft_grade.specs.AllGrades.{AllFailInRuns, GradesAreOne, GradesAreThere};
ghost use Rattle.dft_grade.specs.Laws.{DetectedIsSound, GradeIsOne, GradeIsPlain};

/// Where a fault is detected, every run of the design with the fault shows the opposite of the printed bit there: for any starting
/// bits, any order of the rises and of the falls in each vector, any of them at once, and any free bits.
pub fn detected_is_sound()
    ensures { DetectedIsSound }
{}

/// A fault has one grade at most.
pub fn grade_is_one()
    ensures { GradeIsOne }
{}

/// A fault has a grade wherever the design with it has an order. The plain replay gives it: it settles nets by levels of drivers, and
/// raises the map of a pulse round by round.
pub fn grade_is_plain()
    ensures { GradeIsPlain }
{}

/// The faults of a design under patterns have one list of grades: there is one wherever the design has an order, and each fault that is
/// detected fails in every run.
pub fn grades_are_one()
    ensures one { GradesAreOne }
    ensures there { GradesAreThere }
    ensures runs { AllFailInRuns }
{}
