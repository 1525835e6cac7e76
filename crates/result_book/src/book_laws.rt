//! Laws of books and their rows, each as the contract of a function that does nothing.
ghost use Rattle.result_book.specs.BookLaws.{BooksGrowByRows, FinishedBooksAreCounted, FirstPartsAreRows, HistoriesAreWellFormed, MissingWordsPlayNoPart, ReadTestsTellAll, RefusedBooksAreIllFormed, RowsAreFew, WantsMayFollow, WordsDetermineRows};

/// A book that is refused for another cause than memory is not well-formed.
pub fn refused_books_are_ill_formed()
    ensures { RefusedBooksAreIllFormed }
{}

/// A well-formed book of the second format with a row that may come next is well-formed, and a keeper may append that row.
pub fn books_grow_by_rows()
    ensures { BooksGrowByRows }
{}

/// The next row of a pair is determined by its word and its bound.
pub fn words_determine_rows()
    ensures { WordsDetermineRows }
{}

/// Each first part of rows in form is in form.
pub fn first_parts_are_rows()
    ensures { FirstPartsAreRows }
{}

/// Rows in form are at most 371 for each mutation and each of 16 tests.
pub fn rows_are_few()
    ensures { RowsAreFew }
{}

/// A book is finished exactly where its state counts each mutation as finished.
pub fn finished_books_are_counted()
    ensures { FinishedBooksAreCounted }
{}

/// Whatever the words are of the tests that have none yet, the script asks for the same.
pub fn missing_words_play_no_part()
    ensures { MissingWordsPlayNoPart }
{}

/// The history of a well-formed book of either format is well-formed, and says the same of each mutation.
pub fn histories_are_well_formed()
    ensures { HistoriesAreWellFormed }
{}

/// On the read tests of a mutation alone the script asks for the same as on all its rows.
pub fn read_tests_tell_all()
    ensures { ReadTestsTellAll }
{}

/// What a run wants of a mutation may come next.
pub fn wants_may_follow()
    ensures { WantsMayFollow }
{}
