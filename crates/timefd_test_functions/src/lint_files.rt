//! Tests of `timefd_lint_files` with a made-up file system, which no row can have.

mod fake;
mod folders;
