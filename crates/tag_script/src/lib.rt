//! The tag script of a project, its `[logic]`: which tests it asks for on a mutation, and the tags that it gives.
//!
//! `Checks` says what is wrong with a line where it stands, and `Blocks` parts the lines of a block: each with its body, the
//! lines behind it that are indented further. A block is read one line with its body after the other, in a loop; only bodies
//! nest, and each has one in `room` less, as the parentheses in an expression have. Arms are joined to the `if` that is open as
//! they come. `Courses` says what a script does: it reads the word of a test and goes on by it, or ends. `Outcomes` walks a
//! course by a word for each test, to the tests that are asked and the end; `ask` evaluates by the words that there are, and
//! `Telling` proves that it tells the first test of that outcome without a word, or its end. `Fits` says that a script names only
//! so many tests and tags; `Fitting` proves it of each that was read, along its lines, and `Below` that such a script reads no
//! other word, along its course.
#![tactic(auto)]

mod answer;
mod asking;
mod block;
mod checks;
mod draft;
mod evaluation;
mod read;
mod results;
mod script;
mod value;

pub use answer::Ask;
pub use asking::ask;
pub use block::{body_len, first_indent, first_rows, rows_behind};
pub use checks::{excess, has_lines, is_indented_so};
pub use read::{first_too_many, read_script};
pub use results::{MAX_TESTS, Results};
pub use script::{Arm, Script, ScriptError, Statement};
