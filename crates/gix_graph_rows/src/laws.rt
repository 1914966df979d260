//! States a law of rows, as the contract of a function.

ghost use Rattle.gix_graph_rows.specs.RowLaws.{RowsSayTheSame};

/// States that a row of a sound commit-graph file, read alone, says of a commit the date and the
/// generation number that the file says, and the number of parents, unless it names a list of them.
pub fn rows_say_the_same()
    // The row at a position of a sound file says the date, the generation number and the number of
    // parents of the commit that the file has there. A row that names a list of further parents only
    // says that there are at least two parents.
    ensures { RowsSayTheSame }
{}
