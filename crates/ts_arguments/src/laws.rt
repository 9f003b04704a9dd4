// What holds of the values of every statement, in the words of one who writes it.
ghost use Rattle.ts_arguments.specs.Printed.{ValuesAreReadAgain, RowsAreReadAgain};

use ts_row::{printed_digits_write_the_size, printed_values_fit_again};

/// A value that is printed is read again, where a blank, a comma or a closing bracket stands behind it, as one literal;
/// this fits the column and gives the value back. So for a row, as the last arguments of a statement; it is visible
/// then.
pub fn printed_values_are_read_again()
    ensures value { ValuesAreReadAgain }
    ensures row { RowsAreReadAgain }
{
    printed_digits_write_the_size();
    printed_values_fit_again();
}
