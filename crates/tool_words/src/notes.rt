//! The notes that follow the options in the help of each command. The manual says more.

pub(crate) const UBTOOL_NOTES: &str = "\
Without words, one image is read from standard input, and all its variables
are printed. Words that start with - come after --, as in 'printenv -- -x'.

The status is 0 if all is done, 1 if something is refused, a variable is missing
or a check finds something, and 2 if the command line is invalid.

Example:
  ubtool rehearse -d devices.txt

See 'ubtool help COMMAND' and the manual, ubtool(1).
";

pub(crate) const PRINTENV_NOTES: &str = "\
Each variable is a line NAME=VALUE. A missing one is reported on standard error,
and the status is then 1. A value may have newlines: programs read the output of
-0 or --escaped. A text has a line NAME=VALUE for each variable, or is what
U-Boot's printenv wrote. The manual, ubtool(1), has the format of FILE.

Example:
  ubtool printenv bootcmd bootdelay
";

/// The same as `PRINTENV_NOTES`, with an example of the tool.
pub(crate) const FW_PRINTENV_NOTES: &str = "\
Each variable is a line NAME=VALUE. A missing one is reported on standard error,
and the status is then 1. A value may have newlines: programs read the output of
-0 or --escaped. A text has a line NAME=VALUE for each variable, or is what
U-Boot's printenv wrote. The manual, ubtool(1), has the format of FILE.

Example:
  fw_printenv bootcmd bootdelay
";

pub(crate) const SETENV_NOTES: &str = "\
The VALUEs are joined by one space. Of a redundant pair, the copy that is not
current is written, and becomes current. A line of a script is 'NAME VALUE', or
'NAME' alone to delete the variable; lines that start with # are skipped.

Example:
  ubtool setenv bootdelay 3
";

/// The same as `SETENV_NOTES`, with an example of the tool.
pub(crate) const FW_SETENV_NOTES: &str = "\
The VALUEs are joined by one space. Of a redundant pair, the copy that is not
current is written, and becomes current. A line of a script is 'NAME VALUE', or
'NAME' alone to delete the variable; lines that start with # are skipped. The
script of '-s -' is standard input, where the last line needs its newline.

Example:
  fw_setenv bootdelay 3
";

pub(crate) const REHEARSE_NOTES: &str = "\
Each way that the device commands can succeed or fail is a run, and each run is
listed once, success before failure. A run's word has a digit for each answer: 0
for a success, 1 for a failure. A run that meets a bound is listed as cut. The
image is never written.

A line of the device list is the NAME of a command, which succeeds or fails, or
says more of it, as in 'final bootm' or 'dhcp serverip=10.0.0.1'. The manual,
ubtool(1), has all kinds of lines.

Example:
  ubtool rehearse -d devices.txt
";

pub(crate) const ENDINGS_NOTES: &str = "\
All runs are counted by how they end, even if they are too many to list. The
lines of each ending are followed by one about all runs:

  ends COUNT first WORD fewest FAILURES WORD ENDING
  fails WORDS
  all COUNT states STATES

COUNT runs end this way. The first WORD names the first of them. FAILURES is
the least number of failures among them, and the second WORD names the first
run with so many, in which the commands of the lines fails fail. ENDING is the
last line of a record of rehearse. The image is never written.

Example:
  ubtool endings -d devices.txt bootargs
";

pub(crate) const BOOTS_NOTES: &str = "\
A boot starts with what a run before it has saved, by a call that 'saves' in the
device list. Each boot has a line 'boot NUMBER', lines 'var NAME=VALUE' of what
differs from boot 1, and for each ending this line, and lines 'fails WORDS':
  ends COUNT first WORD fewest FAILURES WORD ENDING next NUMBER
The last line is 'all BOOTS'. With --then, the line of an ending that booted has
also 'then NUMBER'. With --expect, the status is 1 if a boot does not lead to
ENDING: then only the boots on the way to the first such one are written, and
'lost NUMBER'. The image is never written.

Example:
  ubtool boots -d devices.txt BOOT_ORDER
";

pub(crate) const CAUSES_NOTES: &str = "\
Of the runs in which at most N answers are failures, the report says for each
ending what has to fail: a line 'cause FAILURES ENDING', and then 'fails WORDS'
for each failure. No run with that ending has only some of them. With --check,
status 0 says: whatever N answers are failures, this board boots. The image is
never written.

Example:
  ubtool causes -d devices.txt
";

pub(crate) const IMAGE_NOTES: &str = "\
The image has the bytes that mkenvimage writes: the CRC, with --redundant the
flag 1, the variables of TEXT in their order, and free bytes up to its size. A
number is decimal, or hexadecimal after 0x. No file is ever replaced.

Example:
  ubtool image --size 0x4000 -o env.img env.txt
";

pub(crate) const INSPECT_NOTES: &str = "\
The report says of each copy where it is, whether its CRC is right, its flag,
and whether it counts; of the data how many bytes are used, or their first
fault. If no copy counts, it says as what kind of image the bytes would be
valid. The status is 1 if no copy counts or the data have a fault. Nothing is
written.

Example:
  ubtool inspect -i env.img
";
