//! The help texts of the command. `clap` prints the lines as they are, so each has fewer than 80 columns.

pub(crate) const ABOUT: &str = "Reads TeX font metric (TFM) files and sets lines of text with them";

pub(crate) const AFTER_HELP: &str = "Example, with a font of TeX, whose path `kpsewhich` prints:
  echo office | tfmset stream --size 12pt \"$(kpsewhich cmr10.tfm)\"

Examples, in the directory examples of the sources:
  tfmset counts demo.tfm    print the twelve counts and the design size
  tfmset list demo.tfm      print the contents of a font
  tfmset pairs demo.tfm     print the pairs that have a kern or a ligature
  tfmset check demo.tfm     check whether a font is accepted
  tfmset set demo.tfm lines.txt
                            set the lines of a file with a font
  echo five | tfmset stream --size 12pt demo.tfm
                            set the lines of standard input as they arrive
  tfmset each demo.tfm 100 lines.txt demo.tfm 1048576 demo.txt
                            set each file with its own font and step limit

`tfmset COMMAND --help` describes the options of a command and what it prints.
Sizes and widths are printed in scaled points (sp): 65536 sp = 1pt. With
--unit, `list`, `pairs` and --record box print them in another unit. Errors
are reported by one short line. `stream`, `pairs` and `check` print their
causes before it, with the names of files, and so do the other commands with
--verbose (-v).

Exit status:
  0  Success. Help and version output also end with 0.
  1  Success, but a line was refused or, with `check`, a font was refused or
     has a warning.
  2  The arguments are invalid. The output is empty.
  3  A font (except with `check`) or an encoding vector is refused. The output
     is empty.
  4  A font, an encoding vector or a file could not be opened, or could not be
     read to its end.
  5  Memory allocation, a thread start or writing the output failed.";

pub(crate) const COUNTS_ABOUT: &str = "Prints the twelve counts and the design size of a font";

pub(crate) const COUNTS_AFTER_HELP: &str = "Example, in the directory examples of the sources:
  tfmset counts demo.tfm

Prints twelve lines, from `lf N` to `np N`, and `design N`, the design size in
scaled points (65536 sp = 1pt). Checks the counts, the length of the file and
the design size, but not the contents of its tables.

Exit status:
  0  The counts were printed.
  2  The arguments are invalid. The output is empty.
  3  The font is refused. The output is empty.
  4  The font could not be opened, or could not be read to its end.
  5  Memory allocation or writing the output failed.";

pub(crate) const LIST_ABOUT: &str = "Prints the contents of a font, one item per line";

pub(crate) const LIST_AFTER_HELP: &str = "Example, in the directory examples of the sources:
  tfmset list demo.tfm

Prints the header, the boundaries, the characters with their dimensions, the
instructions of the lig/kern program, the kerns and the parameters. Dimensions
are in scaled points (65536 sp = 1pt), at the size of --size or, without this
option, at the design size of the font. Only parameter 1, the slant, is a
ratio: 1048576 means 1. With --all, the twelve counts are printed first, and
the extensible recipes and every word (four bytes) of the file, in hexadecimal,
are printed last. With --verbose, a warning is printed on standard error if the
size has no unit and is below 65536 sp.

With --unit, dimensions are printed in another unit, with its name after the
number: in pt as \\the of TeX prints them, such as 39.44449pt, and in bp, mm,
cm, in or pc with five decimals. The slant stays a ratio. With --format json,
the contents are one JSON object, in one line; a dimension in a unit other than
sp is then a string.

Exit status:
  0  The contents were printed.
  2  The arguments are invalid. The output is empty.
  3  The font is refused. The output is empty.
  4  The font could not be opened, or could not be read to its end.
  5  Memory allocation or writing the output failed.";

pub(crate) const PAIRS_ABOUT: &str = "Prints the pairs of a font that have a kern or a ligature";

pub(crate) const PAIRS_AFTER_HELP: &str = "Example, in the directory examples of the sources:
  tfmset pairs demo.tfm

Prints a line for each pair of neighbours for which the lig/kern program of the
font has an action: LEFT RIGHT kern AMOUNT, or LEFT RIGHT OPERATION CODE. LEFT
is the code of a character of the font, or `left` for the left boundary. RIGHT
is the code of a character of the font, or `right` for the right boundary.
AMOUNT is in scaled points (65536 sp = 1pt) or in the unit of --unit, as in
`tfmset list`, at the size of --size or, without this option, at the design
size. OPERATION is a ligature operation: LIG, LIG/, /LIG, /LIG/, LIG/>, /LIG>,
/LIG/> or /LIG/>>. CODE is the code of the character that it inserts. With
--format csv, commas separate the fields, and the first line names them; json
prints one JSON object per line. If the size has no unit and is below 65536 sp,
a warning is printed on standard error.

With --encoding, the characters of LEFT, RIGHT and CODE are printed after these
fields, in UTF-8: `86 65 kern -72819 V A`. The encoding has to be that of the
font: ot1 for cmr10, t1 for ecrm1000, ly1, latin1, or the path of an encoding
vector, as for `tfmset set`. For a code without a character, `none` is printed.
A space, a no-break space, a soft hyphen or a control character is printed by
its number, such as U+0020 for a space. With csv, a field without a character
is empty; with json, a character is a string, or null, and an amount in a unit
other than sp is a string.

Exit status:
  0  The pairs were printed.
  2  The arguments are invalid. The output is empty.
  3  The font or the encoding vector is refused. The output is empty.
  4  The font or the encoding vector could not be opened, or could not be read
     to its end.
  5  Memory allocation or writing the output failed.";

pub(crate) const CHECK_ABOUT: &str =
    "Checks whether fonts are accepted, and prints one line for each";

pub(crate) const CHECK_AFTER_HELP: &str = "Examples, in the directory examples of the sources:
  tfmset check \"$(kpsewhich cmr10.tfm)\"
  tfmset check demo.tfm fonts/plain.tfm fonts/ligature_0.tfm
  tfmset check --quiet --summary fonts/*.tfm
  find . -name '*.tfm' -print0 | tfmset check --files-from - --null

Reads the FONTs in order and prints one line for each: `NAME: accepted`,
`NAME: refused: ` and the first error of the font, or `NAME: not read`. A font
that isn't accepted doesn't stop the check. With --quiet, the lines of accepted
fonts without warnings are left out. With --summary, the last line has the
numbers of fonts, as in `3 fonts: 2 accepted, 1 refused`, and if some were not
read, their number, too. With --format json, each line is a JSON object. For
each font that was not read, the cause is printed on standard error, and for
one that is an OpenType, Type 1 or virtual font or a text, what it is.

With --files-from FILE, the fonts whose names are the lines of FILE are read
after the FONTs, however many they are. An empty line names no font, and - in
FILE is the name of a file. If FILE is -, the names are read from standard
input. With --null, names end with a zero byte, as `find -print0` prints them.

TeX may refuse to load a font that is accepted here. With --strict, the line of
such a font is `NAME: refused by TeX: ` and the first reason: a code with the
tag `list` must lead to codes from bc to ec and not back to itself, and a code
with the tag `ext` must have an extensible recipe whose pieces exist. The line
of another accepted font may be `NAME: accepted, 2 warnings`, with a line for
each below it, of what `tftopl` reports. The exit status is then 1.

Exit status:
  0  Every FONT is accepted.
  1  Every FONT was read, but at least one is refused or, with --strict, has a
     warning.
  2  The arguments are invalid, or more than one of FONTs and FILE is -. The
     output is empty.
  4  A FONT or FILE could not be opened, or could not be read to its end.
  5  Memory allocation or writing the output failed. The check stops there.";

pub(crate) const SET_ABOUT: &str =
    "Sets the lines of files with a font, and prints one record per line";

pub(crate) const SET_AFTER_HELP: &str = "Examples, in the directory examples of the sources:
  tfmset set --size 12pt demo.tfm lines.txt
  tfmset set --workers 4 --block 8 demo.tfm lines.txt demo.txt
  echo five | tfmset set demo.tfm /dev/stdin

Reads FONT and sets the lines of 1 to 64 FILEs concurrently. Prints nothing
until every FILE is set. Then prints the FILEs in order: a record for each
line, and after the last record an end line. For output as it is produced, and
for large inputs, use `tfmset stream`.

A record is SOURCE:LINE and a result. SOURCE is the number of the FILE, and
LINE the number of the line, both from 1. The result is one of these:

  set WIDTH ITEM...             the line was set
  refused too-long LENGTH       the line has more than 65535 bytes
  refused encoding OFFSET       with --encoding: the line isn't UTF-8
  refused uncoded OFFSET U+HEX  a character has no code in the encoding
  refused missing OFFSET CODE   FONT has no character with this code
  refused steps LIMIT           the line needs more steps than --limit

An ITEM is cCODE=WIDTH (a character), kAMOUNT (a kern), sAMOUNT (a space), or,
with --missing skip, mCODE or uHEX (a character that was skipped). WIDTH and
AMOUNT are in scaled points (65536 sp = 1pt). OFFSET counts the bytes of the
line from 0. HEX is the number of a character in Unicode, such as 20AC.

An end line is SOURCE end complete COUNT, with the number of records. Another
word instead of `complete` states why not all lines of the FILE could be read
and set; the other FILEs are set.

A line feed (byte 10) ends a line; with --crlf, one carriage return (byte 13)
before each line feed is left out. A FILE named - is a file of that name, and
/dev/stdin is standard input.

Without --encoding, the bytes of a line are character codes of the font, not
Unicode. Byte 32 is a space, and a carriage return is a code like any other.
With --encoding, the lines are text in UTF-8, and each character is set with
its codes in the encoding. This has to be the encoding of the font: ot1 for
cmr10, t1 for ecrm1000, ly1, or latin1. For any other encoding, pass the path
of a file with its encoding vector, such as \"$(kpsewhich 8r.enc)\" for ptmr8r.
A path contains a slash or a period.

A missing character is a code, other than that of the space, for which FONT has
no character. With --missing refuse, the default, it refuses the line, and so
does a character that has no code in the encoding. With skip, such characters
are left out, and the record lists them. A line that isn't UTF-8 is always
refused.

Without --size, the font is set at its design size. A size is a number directly
followed by pt, in, pc, cm, mm, bp, dd, cc or sp, such as 10.95pt or 4mm, and
is rounded as TeX rounds it. A number without a unit is a whole number of
scaled points: 655360 is 10pt. A size is 1 to 134217727 scaled points. With
--verbose, a warning is printed on standard error if it is below 65536, which
is 1pt, and has no unit.

A line that needs more steps than --limit is refused; this stops lig/kern
programs that never end. A step is one ligature, one kern, or one move to the
next element. Record format 2 adds the number of steps to the records of lines
that were set; json prints the same data as one JSON object per line. With box,
the record of a line that was set is
  SOURCE:LINE box WIDTH HEIGHT DEPTH SPACES SKIPPED
with the dimensions of TeX's \\hbox of the line, the number of its spaces, and
the number of characters that were skipped. The dimensions are in sp, or in the
unit of --unit, such as 35.74994pt or 12.56467mm.

--workers is the largest number of threads that set lines. More of them can set
a FILE in less time, if processors are free. Its lines are dealt to all of them
in turn; if there are more than four FILEs, each may have fewer. The
output doesn't depend on this number. --block is the largest number of lines
that threads pass on together: 8 takes the least processor time, and delays
nothing, since the output is printed at the end.

With --verbose, the causes of errors are printed on standard error, with the
names of files, and then how many lines were set, how many were refused for
each reason, how many end with a carriage return, and how many characters were
skipped.

Exit status:
  0  Every line of every FILE was set, and the output was written.
  1  The output was written, but at least one line was refused.
  2  The arguments are invalid, or there are more than 64 FILEs.
  3  FONT or the encoding vector is refused.
  4  FONT, the encoding vector or a FILE could not be opened, or could not be
     read to its end.
  5  Memory allocation, a thread start or writing the output failed.
With 2 and 3, the output is empty.";

pub(crate) const STREAM_ABOUT: &str =
    "Sets lines as `set` does, printing each record as soon as it is ready";

pub(crate) const STREAM_AFTER_HELP: &str = "Examples, in the directory examples of the sources:
  echo five | tfmset stream --size 12pt demo.tfm
  tfmset stream --workers 4 demo.tfm lines.txt demo.txt

Reads FONT and sets the lines of up to 64 FILEs concurrently. Without a FILE,
it sets the lines of standard input, and FONT can't be -. Prints the same
records and end lines as `tfmset set`. The records of one FILE are printed in
order; those of several FILEs are interleaved as they are produced.

Use `set` for all-or-nothing output in file order: it prints nothing until all
FILEs are set. Only a failed write or a signal can then cut its output short.
Use `stream` for output as it is produced, and for inputs of any size: it keeps
the lines that are being set, but not the whole output. If `stream` fails,
every complete line that it has printed is valid. With both commands, if the
lines of a FILE could not all be read and set, its end line states the reason.

Lines, records, --size, --limit, --missing, --crlf, --encoding and --record are
as `tfmset set --help` describes them.

--block is the largest number of lines that threads pass on together. Without
this option, they pass on the lines of each read together, which takes the
least processor time. A record doesn't wait for input that hasn't arrived,
however large the block is. --workers is the largest number of threads that set
lines: more of them can set a FILE in less time, if processors are free. If
the reader of a pipe closes it, `stream` ends at its next write, with exit
status 5 and the cause `Broken pipe`.

Causes of errors are printed on standard error, with the names of files, and so
is what makes numbers wrong: a size below 65536 without a unit; the first line
that is UTF-8, without --encoding, or ends with a carriage return, without
--crlf; and a font for another encoding than that of --encoding. Such lines are
looked for in the first 65536 bytes of each FILE. With --verbose, `stream` then
prints how many lines were set, how many were refused for each reason, how many
end with a carriage return, and how many characters were skipped.

Exit status:
  0  Every line was set, and the output was written.
  1  The output was written, but at least one line was refused.
  2  The arguments are invalid, there are more than 64 FILEs, or FONT and the
     lines are both on standard input.
  3  FONT or the encoding vector is refused.
  4  FONT, the encoding vector or a FILE could not be opened, or could not be
     read to its end.
  5  Memory allocation, a thread start or writing the output failed.
With 2 and 3, the output is empty.";

pub(crate) const EACH_ABOUT: &str =
    "Sets the lines of files, each with its own font and step limit";

pub(crate) const EACH_AFTER_HELP: &str = "Example, in the directory examples of the sources:
  tfmset each demo.tfm 100 lines.txt demo.tfm 1048576 demo.txt

The arguments are 1 to 64 triples FONT LIMIT FILE. FONT is a TFM file, LIMIT is
the largest number of steps for a line, 1 to 16777216, and FILE is a file with
lines. An argument - is always the name of a file, and never standard input.

Prints the same records and end lines as `tfmset set`, once every FILE is set.
All options are as `tfmset set --help` describes them. --size and --encoding
are for all FONTs; without --size, each FONT is set at its own design size.

Exit status:
  0  Every line of every FILE was set, and the output was written.
  1  The output was written, but at least one line was refused.
  2  The arguments are invalid, are not triples, or are more than 64 triples.
  3  A FONT or the encoding vector is refused.
  4  A FONT, the encoding vector or a FILE could not be opened, or could not be
     read to its end.
  5  Memory allocation, a thread start or writing the output failed.
With 2 and 3, the output is empty.";

pub(crate) const WORKERS_HELP: &str = "Maximum threads that set lines, 1 to 16";

pub(crate) const CAPACITY_HELP: &str = "Slots per queue between threads, 1 to 65536";

pub(crate) const BLOCK_HELP: &str = "Lines per message, 1 to 8; 8 is fastest";

pub(crate) const STREAM_BLOCK_HELP: &str =
    "Lines per message, 1 to 8; by default those of one read";

pub(crate) const WORDS_HELP: &str = "FONT LIMIT FILE, repeated for each file";

pub(crate) const FILE_HELP: &str = "Files with the lines to set";

pub(crate) const STREAM_FILE_HELP: &str =
    "Files with the lines to set; without one, standard input is read";

pub(crate) const SIZE_HELP: &str = "Font size, such as 12pt; a number without a unit is in sp";

pub(crate) const SIZE_ERROR: &str = "a size is 1 to 134217727 scaled points, or a number with a \
    unit (pt, in, pc, cm, mm, bp, dd, cc or sp) in this range, such as 12pt";

pub(crate) const LIMIT_HELP: &str = "Maximum steps per line, 1 to 16777216";

pub(crate) const MISSING_HELP: &str = "On a missing character: refuse or skip";

pub(crate) const CRLF_HELP: &str = "Leave out one carriage return before each line feed";

pub(crate) const ENCODING_HELP: &str = "bytes, ot1, t1, ly1, latin1, or a file";

pub(crate) const ENCODING_ERROR: &str = "
  [possible values: bytes, ot1, t1, ly1, latin1]

  tip: a value with a slash or a period is the path of an encoding vector";

pub(crate) const RECORD_HELP: &str = "Format: 1, 2, json or box; 1 omits steps";

pub(crate) const BOX_UNIT_HELP: &str = "Unit of --record box: sp, pt, bp, mm, cm, in or pc";

pub(crate) const UNIT_ERROR: &str =
    "the argument '--unit <U>' can only be used with '--record box'";

pub(crate) const UNIT_HELP: &str = "Unit: sp, pt, bp, mm, cm, in or pc";

pub(crate) const FORMAT_HELP: &str = "Output format: text, csv or json";

pub(crate) const ALL_HELP: &str = "Also print the counts, the extensible recipes and all words";

pub(crate) const STRICT_HELP: &str = "Also print what TeX and TFtoPL report";

pub(crate) const QUIET_HELP: &str = "Leave out accepted fonts without warnings";

pub(crate) const SUMMARY_HELP: &str = "Print a last line with the numbers of fonts";

pub(crate) const JSON_FORMAT_HELP: &str = "Output format: text or json";

pub(crate) const FILES_FROM_HELP: &str = "File with the names of further fonts, one per line";

pub(crate) const NULL_HELP: &str = "Names in this file end with a zero byte";

pub(crate) const FONT_ERROR: &str =
    "the following required arguments were not provided:\n  <FONT>...";

pub(crate) const CAUSES_HELP: &str = "Print causes of errors on standard error";

pub(crate) const VERBOSE_HELP: &str = "Print causes of errors and a summary on standard error";

pub(crate) const FONT_HELP: &str = "TFM file, or - for standard input";

pub(crate) const FONTS_HELP: &str = "TFM files; at most one of them may be -, for standard input";
