//! What help says of the program and of its tools. No line has more than 80 characters.

pub const VERSION: &str = "0.1.0";

pub const ABOUT: &str = "Prints, checks and edits rec files, and undoes edits";

pub const PROGRAM_HELP: &str =
    "A file begins empty (touch new.rec). A record in it is a line NAME: VALUE for\neach field, and an empty line ends it. An edit that was wrong is taken back by\nrecu undo FILE, and made again by recu redo FILE; recu revert N FILE takes the\nedit N back, and leaves those after it. recu history FILE prints which edits\nthere are, and recu show FILE what the newest changed. With --dry-run a command\nprints what it would change, and changes nothing. A change by another program\nends that history, unless recu adopt OLD FILE makes it an edit too. One command\nat a time edits a file: a second one is refused, and doesn't wait.\n\nFILE.new and the journal's .new are working names of recu: each file is written\nunder its own before it takes its place. What an interrupted recu left there is\nremoved; with any other file there the command is refused, and the file stays.\n\nExamples:\n  recu recsel -e \"#Phone\" contacts.rec\n  recu recdel -n 1 contacts.rec\n  recu undo contacts.rec";

pub const RECSEL_HELP: &str =
    "By default -t takes the records of no type, or else those of the only type. Only\none of -e, -n, -q and --where can be given, and only one of -p, -P, -R and -c.\n\nExamples:\n  recu recsel -e \"#Phone || Note ~ 'second'\" -P Name contacts.rec\n  recu recsel -n 0,2 -p Name,Email contacts.rec\n  recu recsel -t Book -q Austen library.rec\n  recu recsel --where 'Name=Ada Lovelace' contacts.rec";

pub const RECINF_HELP: &str =
    "Only one of -d and -n can be given.\n\nExamples:\n  recu recinf library.rec\n  recu recinf -t Book -d library.rec";

pub const RECFIX_ABOUT: &str =
    "Reports where the rules of record sets are broken, or gives records their\nautomatic fields. Only one of --check and --auto can be given. Only --auto needs\nFILE.";

pub const RECFIX_HELP: &str =
    "Each violation is a line, LINE: RULE NAME. Where there is one, the exit status\nis 1, and every edit is refused that doesn't mend all: mend what is reported\nfirst, with --force or by hand.\n\nExamples:\n  recu recfix library.rec\n  recu recfix --auto library.rec";

pub const RECINS_USAGE: &str =
    "recu recins [OPTIONS] -f NAME -v VALUE.. FILE\n       recu recins [OPTIONS] -r TEXT FILE";

pub const RECINS_ABOUT: &str =
    "Inserts a record after the last one of its type, with its automatic fields. With\none of -e, -n, -q and --where it replaces each selected record, without\nautomatic fields. The record is given by -f and -v, the first name with the\nfirst value and so on, or as the text of -r.";

pub const RECINS_HELP: &str =
    "The default of -t is for a new record no type, even where there is only one, and\nfor those that are replaced no type, or else the only one.\n\nExamples:\n  recu recins -f Name -v 'Alan Turing' -f Phone -v '555 0123' contacts.rec\n  recu recins -t Book -r 'Title: Emma' library.rec\n  recu recins -n 0 -f Name -v 'Ada King' contacts.rec";

pub const RECDEL_ABOUT: &str =
    "Deletes records, or comments them out. Only one of -e, -n, -q and\n--where can be given; without one, all records, --force is needed.";

pub const RECDEL_HELP: &str =
    "By default -t takes the records of no type, or else those of the only type.\n\nExamples:\n  recu recdel -n 1 contacts.rec\n  recu recdel -c -e \"Name ~ 'Hopper'\" contacts.rec\n  recu recdel --where 'Name=Ada Lovelace' contacts.rec";

pub const RECSET_USAGE: &str = "recu recset [OPTIONS] -f FIELDS <ACTION> FILE";

pub const RECSET_ABOUT: &str =
    "Edits fields of records. FIELDS and exactly one ACTION of -s, -a, -S, -r, -d and\n-c are needed. Only one of -e, -n, -q and --where can be given; without one\nall records are edited.";

pub const RECSET_HELP: &str =
    "By default -t takes the records of no type, or else those of the only type. A\nvalue that begins with a hyphen is given as in --set=-5.\n\nExamples:\n  recu recset -n 0 -f Email -s ada@example.net contacts.rec\n  recu recset -e '!#Phone' -f Phone -a unknown contacts.rec\n  recu recset -n 2 -f Note --set=-5 contacts.rec";

pub const BATCH_USAGE: &str = "recu batch [OPTIONS] -b PATH FILE";

pub const BATCH_ABOUT: &str =
    "Makes the edits of PATH one after another, as one edit: where one of them is\nrefused none is made, and one undo takes them all back. -b is needed.";

pub const BATCH_HELP: &str =
    "PATH is a rec file, and each of its records is an edit:\n\n  Tool: recset\n  Expression: Name ~ 'Ada'\n  Fields: Phone\n  SetAdd: 555 0199\n\n  Tool: recdel\n  Number: 1\n\nTool is recins, recdel, recset, or recfix, which gives automatic fields. The\nother fields are named like the tool's options: Type and one of Expression,\nNumber and Quick; for recins Field and Value, or Record, and Auto: no; for\nrecdel Comment: yes; for recset Fields and one of Set, Add, SetAdd, Rename,\nDelete: yes and Comment: yes. With --force it is forced as a whole.\n\nExamples:\n  recu batch -b changes.rec contacts.rec\n  recu batch -b changes.rec --force --journal edits.rec contacts.rec";

pub const UNDO_HELP: &str =
    "recu history FILE prints which edits there are, recu show FILE what the newest\nchanged, and recu redo FILE makes again what was undone. After a change by\nanother program nothing can be undone.\n\n--through undoes one edit after another, edit N last. Where one is refused,\nthose before it stay undone, and a line says which they are. With --dry-run what\neach would change is printed.\n\nExamples:\n  recu undo contacts.rec\n  recu undo --through 1 contacts.rec\n  recu undo --journal edits.rec contacts.rec";

pub const REDO_HELP: &str =
    "--through redoes one edit after another, edit N last. Where one is refused,\nthose before it stay redone, and a line says which they are. With --dry-run what\neach would change is printed.\n\nExamples:\n  recu redo contacts.rec\n  recu redo --through 1 contacts.rec\n  recu redo --journal edits.rec contacts.rec";

pub const REVERT_ABOUT: &str =
    "Takes the edit with the number N back, which recu history FILE prints, and\nleaves the later ones: FILE becomes what it would be without that edit.";

pub const REVERT_HELP: &str =
    "That is an edit of its own, which recu undo FILE takes back. Where later edits\nchanged the same lines it is refused, and the newest of them is named: revert\nthat one first, or take back edit N and all later ones with\nrecu undo --through N FILE.\n\nExamples:\n  recu revert 1 contacts.rec\n  recu revert 1 --journal edits.rec contacts.rec";

pub const ADOPT_USAGE: &str = "recu adopt [OPTIONS] [OLD] FILE";

pub const ADOPT_ABOUT: &str =
    "Makes a change by another program, an editor or a checkout too, an edit, so that\nthe history goes on. FILE stays as it is.";

pub const ADOPT_HELP: &str =
    "OLD stands before FILE. It has the text before the change, or any older text of\nthe history, such as that of the last commit; - is standard input. Without OLD\nthe text of FILE is looked for, which is enough where an older text was brought\nback. The edit is taken back by recu undo FILE.\n\nExamples:\n  git show HEAD:contacts.rec | recu adopt - contacts.rec\n  recu adopt contacts.rec~ contacts.rec\n  recu adopt contacts.rec";

pub const WRITE_ABOUT: &str =
    "Gives FILE the text of NEW as one edit, which recu undo FILE takes back. The\nrules of the new text are checked, and FILE itself need not be readable.";

pub const WRITE_HELP: &str =
    "With --over nothing is overwritten that was saved since OLD was copied. An empty\ntext, as that of a command that failed, is written with --force alone.\n\nExamples:\n  sed 's/^Phone: /Tel: /' contacts.rec | recu write - contacts.rec\n  recu write --over old.rec new.rec contacts.rec";

pub const HISTORY_HELP: &str =
    "Prints a line done NUMBER TOOL for each edit that can be undone, the oldest\nfirst, and then a line undone NUMBER TOOL for each that can be redone, the\nnearest first. For a file that was changed by another program it prints only\ndrifted: nothing can be undone then, and the next edit begins a new history,\nunless recu adopt makes the change an edit. --patch prints under each line what\nrecu show NUMBER FILE prints.\n\nExamples:\n  recu history contacts.rec\n  recu history --patch contacts.rec\n  recu history --journal edits.rec contacts.rec";

pub const SHOW_USAGE: &str = "recu show [OPTIONS] [N] FILE";

pub const SHOW_ABOUT: &str =
    "Prints what an edit changed: that with the number N, which recu history FILE\nprints, or without N the newest that can be undone.";

pub const SHOW_HELP: &str =
    "N stands before FILE. What was undone can be shown too, as long as it can be\nredone. What is printed is a unified diff, to read and to send for review;\npatch -p0 and git apply -p0 take it. To take an edit back use recu revert: among\nrecords alike a patch may change another one.\n\nExamples:\n  recu show contacts.rec\n  recu show 1 --unified 0 contacts.rec\n  recu show 1 --journal edits.rec contacts.rec";

pub const FORGET_ABOUT: &str =
    "Forgets all but the newest N of the edits that can be undone, which makes the\njournal shorter. FILE stays as it is. What is forgotten can't be undone any\nmore, and nothing brings it back.";

pub const FORGET_HELP: &str =
    "All edits that can be redone are kept too. What is kept is numbered from 1 on.\nWhere no more than N edits can be undone, nothing is forgotten, and nothing is\nwritten.\n\nAn edit that can be neither undone nor redone, as one that was undone before a\nnew edit, stays in the journal with its texts. --dropped forgets all of these\ntoo, however large N is.\n\nExamples:\n  recu forget 100 contacts.rec\n  recu forget 100 --dropped contacts.rec\n  recu forget 0 --journal edits.rec contacts.rec";
