//! The table of texts: what is wrong, in plain words, for each fault that has a number or a word in `docs/FORMATS.md`.

/// What the lines of refusals say. A row has the word of the command line that the line is about, where in it the fault lies, the words
/// that the line begins with, where `#` is a number and `*` any word, and after a colon what is wrong. The first row that a line fits is its
/// own. Where nothing follows the colon, it is what the policy says.
pub const ROWS: &str = r#"CELL toml cell refused 1: no TOML document
CELL key cell refused 2 resource # *: this key is missing
CELL key cell refused 2 resource: its keys are name, capacity and order
CELL key cell refused 2 type # *: this key is missing
CELL key cell refused 2 type: its keys are name and route, and with version 2 next
CELL key cell refused 2 top *: this key is missing
CELL key cell refused 2: its keys are version, resource and type
CELL value cell refused 3 * # name: it has to be a string
CELL value cell refused 3 type # route #: it has to be a string
CELL value cell refused 3 type # route: it has to be an array of strings
CELL value cell refused 3 type # next #: it has to be an array of integers
CELL value cell refused 3 type # next: it has to be an array of arrays
CELL value cell refused 3 * # *: it has to be an integer
CELL value cell refused 3 top version: it has to be an integer
CELL value cell refused 3 top: it has to be an array of tables
CELL value cell refused 3: it has to be a table
CELL value cell refused 4 type # route #: no name with or without :hold after it; a name is 1 to 32 of A-Z a-z 0-9 _ -
CELL value cell refused 4: no name, which is 1 to 32 of A-Z a-z 0-9 _ -
CELL value cell refused 5 top: it has to be 1 or 2
CELL value cell refused 5 resource # capacity: it has to be from 1 to 1000
CELL value cell refused 5 resource: it has to be from 0 to 65535
CELL value cell refused 5 type # next #: its places have to be later than its own, below the route's length, and each above the one before
CELL value cell refused 5: it needs an array for each place of the route
CELL value cell refused 6: an earlier one has this name
CELL value cell refused 7: no resource has this name
CELL elements cell refused 8 top * #: more than 64
CELL file cell refused 8 top: more than 65536 bytes
CELL elements cell refused 8 type # next # #: more than 8
CELL elements cell refused 8 type # * #: more than 64
CELL value cell refused 9: it needs an element
CELL file cell refused 10: some resources have an order and some have none; give one to all, or to none
CELL units cell refused 11 #: the capacities of all resources add up to more than 4096
CELL resources cell refused 12 #: more than this command serves; advise takes 7, arrange 16
SHIFT toml shift refused 1: no TOML document
SHIFT key shift refused 2 session # *: this key is missing
SHIFT key shift refused 2 session: its keys are steps; or job, type and path; or machine and turns
SHIFT key shift refused 2 top *: this key is missing
SHIFT key shift refused 2: its keys are version, number, patience and session
SHIFT value shift refused 3 session # type: it has to be a string
SHIFT value shift refused 3 session # machine: it has to be a string
SHIFT value shift refused 3 session # steps #: it has to be a string
SHIFT value shift refused 3 session # steps: it has to be an array of strings
SHIFT value shift refused 3 session # path #: it has to be an integer
SHIFT value shift refused 3 session # path: it has to be an array of integers
SHIFT value shift refused 3 session # *: it has to be an integer
SHIFT value shift refused 3 session: it has to be a table
SHIFT value shift refused 3 top session: it has to be an array of tables
SHIFT value shift refused 3: it has to be an integer
SHIFT value shift refused 4: no step; these are load JOB TYPE, process RESOURCE, move JOB, move JOB BRANCH and unload JOB
SHIFT value shift refused 5 top version: it has to be 1
SHIFT value shift refused 5 top number: it has to be from 1 to 4294967295
SHIFT value shift refused 5 top: it has to be from 1 to 1000
SHIFT value shift refused 5 session # job: it has to be from 0 to 4294967295
SHIFT value shift refused 5 session # path #: it has to be from 0 to 7
SHIFT value shift refused 5 session # path: these branches don't lead from the first place to a last one
SHIFT value shift refused 5: it has to be from 1 to 16384
SHIFT value shift refused 6 session # type: the cell has no type of this name
SHIFT value shift refused 6 session # machine: the cell has no resource of this name
SHIFT value shift refused 6: the cell has no resource or type of this name
SHIFT value shift refused 7: it needs an element
SHIFT elements shift refused 8 session # path #: more than 63
SHIFT elements shift refused 8 session # * #: more than 64
SHIFT elements shift refused 8 top * #: more than 64
SHIFT file shift refused 8: more than 1048576 bytes
SHIFT steps shift refused 9 #: all sessions together have more than 16384
SHIFT asks shift refused 10 #: the steps of all sessions times the patience are more than 1048576
START file record refused 0: more than 262144 bytes
START line record refused #: no line place JOB TYPE PLACE done, or place JOB TYPE PLACE waiting, of a place that the cell has
RECORD file record refused 0: more than 160000000 bytes
RECORD line record refused #: no record has this line after those before it
RECORD line no # after: the head has to name the grants before it
RECORD line no # reply: the policy answers otherwise
RECORD line no # left: another number of parts is left
RECORD line no # step: this step of the plan is not granted in its turn
RECORD line no # parts: parts remain when all steps of this plan are taken
STEP word step refused: no step of this cell; these are load JOB TYPE, process RESOURCE, move JOB, move JOB BRANCH and unload JOB, with the names of the cell file
FRAMES length frames refused: no frames; these have 24 bytes each, and at most 50331648 together
JOURNAL mark journal refused 1: no journal, and nothing was written to it; name a journal, or a file that isn't there
JOURNAL place journal refused 2 #: made with another text of the cell file (a comment counts too); give that one, or bring its parts to this one by carry and begin (docs/MOVING.md)
JOURNAL gate journal refused 3 #: cut off or changed by another program; nothing was written to it. Keep it, and go on with a copy from before
JOURNAL grants journal refused 4 #: no room for more; cut it back by carry and begin (docs/MOVING.md)
JOURNAL session journal refused 5 #: another shift has this number; give the shift a new number, or the shift file that began it
JOURNAL grant journal refused 6 #: no grant of this start file; begin wants a new journal, or one that the same begin was cut off in
CELL2 part carry refused # type: the other cell has no type of its name
CELL2 part carry refused # place: its type has no such place there on a resource of the same name
CELL2 part carry refused #:
START line start refused #:
JOURNAL grants feed refused #: FROM is above this number
FRAMES grant follow refused # frame: its record is none; the file was not made by feed, or was changed
FRAMES grant follow refused # conflict: the journal has another grant of this number; another controller made the frames
FRAMES grant follow refused # fit: the cell has no such type, resource or place; the frames are of another cell file
FRAMES grant follow refused #:
"#;

/// Why the policy refuses a request, by the first word of the refusal, with a space before it; nothing for any other word.
pub fn policy_text(word: &str) -> &'static str {
    match word {
        "job-loaded" => " a part of this job is in the cell already",
        "no-such-job" => " no part of this job is in the cell",
        "not-processed" => " the part's work at its place comes first",
        "at-last" => " the part is at a last place, from which it is unloaded",
        "not-last" => " the part is not at a last place yet",
        "idle" => " no part waits for work there",
        "saturated" => {
            " the neighborhood of this resource would get more parts than it has units"
        }
        "no-branch" => " the part's place has no such branch",
        _ => "",
    }
}

/// What is to be done after a write or a sync that failed.
pub const AFTER_WRITE: &str = "; copy the journal or restart the computer before you go on with it";

/// Why a journal can't be opened.
pub const IS_LOCKED: &str = "; another program has it open";

/// There was not enough memory.
pub const NO_MEMORY: &str = "there was not enough memory";
