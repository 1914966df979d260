//! Holds what `git proved -h` and `git proved --version` print.

/// The help: what `git proved -h` prints.
pub(crate) const HELP: &[u8] = b"\
usage: git proved [-C FOLDER] [--git-dir=FOLDER] [--work-tree=FOLDER]
                  [--authentic[=whole]] COMMAND [ARGUMENT..]

Answer a question about a repository as git does. Proved calls find merge bases,
ranges, counts, descriptions and the refs that contain a commit. All commands
but batch are git's, with git's options:

    merge-base     find the best common ancestors of commits
    describe       name a commit by a tag that it reaches
    rev-parse      print the ids that revisions name
    rev-list       list or count the commits that revisions reach
    for-each-ref   list refs, also only those that contain a commit
    batch          answer such questions, one a line, from standard input

Options before the command:

    -C FOLDER           run in FOLDER
    --git-dir=FOLDER    use the repository in FOLDER
    --work-tree=FOLDER  use FOLDER as the working tree
    --authentic         read commits only from objects whose SHA-1 is their id
    --authentic=whole   as --authentic, and first read all that the commits reach
    -h, --help          print this help
    --version           print the version

Exit status:

    0, 1, 128   as in git
    129         the question is not supported; ask git
    125         something is damaged or has changed, or the program failed
    141         standard output is a pipe that was closed

With 125 and 129 nothing is printed on standard output. git proved COMMAND -h
lists the options of a command. The manual page git-proved(1) explains them.
";

/// The version: what `git proved --version` prints.
pub(crate) const VERSION: &[u8] = b"git-proved 0.9.0\n";
