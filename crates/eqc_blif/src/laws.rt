//! Laws of the definitions that `read` is proved against. The functions do nothing: their contracts
//! are the laws.
ghost use Rattle.eqc_blif.specs.Laws.{TextsFollow, FirstFaultStays, FoundIsFirst, FirstIsFound, CommentsChangeNothing, TrailingBlanksChangeNothing, BlankLinesOnlyRenumber, NumbersPlayNoPart, SkippedLinesChangeNothing, LineNumbersRise, LinesMakeTheText, LinesAreCutAgain, LibrariesHaveNoNameTwice, RowsFitTheirCovers};
ghost use Rattle.eqc_blif.specs.PlainText.{WordsAreReadBack, LibrariesAreReadBack};

/// The lines of a text stay, whatever text follows it, and so does its first faulty line.
pub fn first_fault_stays()
    ensures lines { TextsFollow }
    ensures fault { FirstFaultStays }
{}

/// The fault that a text is refused for is a line with a code before which no line has one, and
/// there is at most one.
pub fn first_fault_is_one()
    ensures first { FoundIsFirst }
    ensures one { FirstIsFound }
{}

/// Comments, trailing blanks and skipped commands change no library.
pub fn what_changes_nothing()
    ensures comments { CommentsChangeNothing }
    ensures blanks { TrailingBlanksChangeNothing }
    ensures skipped { SkippedLinesChangeNothing }
{}

/// Inserted blank lines only renumber the lines behind them, and numbers play no part in a library.
pub fn blank_lines_only_renumber()
    ensures renumbered { BlankLinesOnlyRenumber }
    ensures same { NumbersPlayNoPart }
{}

/// The numbers of a text's lines rise from 1 on.
pub fn line_numbers_rise()
    ensures { LineNumbersRise }
{}

/// A text is its lines put together, and lines that are put together are cut again.
pub fn lines_are_cut_again()
    ensures text { LinesMakeTheText }
    ensures lines { LinesAreCutAgain }
{}

/// A library has distinct model names, and no name twice in a list of inputs or outputs.
pub fn libraries_have_no_name_twice()
    ensures { LibrariesHaveNoNameTwice }
{}

/// Each row of a library has a place for each column of its cover and one for the output, and all
/// rows of a cover end alike.
pub fn rows_fit_their_covers()
    ensures { RowsFitTheirCovers }
{}

/// Words that stand in lines, with a space between each two and an LF behind each line, are read
/// back as these lines, and a library is read back from its plain text, which has such a line for
/// each statement.
pub fn plain_texts_are_read_back()
    ensures words { WordsAreReadBack }
    ensures libraries { LibrariesAreReadBack }
{}
