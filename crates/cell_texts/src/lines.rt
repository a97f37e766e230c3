//! Every line that the program prints beside records.
ghost use Rattle.std.specs.Prelude.{◌≡◌, ◌+◌, ◌≤◌, ◌++◌, [], length, IfSome};
ghost use Rattle.std.specs.Option.{option_map, option_map_or};
ghost use Rattle.record_text.specs.Spaced.{spaced};
ghost use Rattle.cell_texts.specs.Texts.{bad_line_text, field_word, field_words, fault_code_words, item_words, job_line, number_words};
ghost use Rattle.cell_texts.specs.Texts.{place_words, refusal_text, section_word, step_refused};

use crate::fault_codes::FaultCode;
use cell_base::{Field, JobId, Place, Section};
use record_text::Line;

/// The line of a job that stands in the way of a request.
pub fn job_line(job: JobId) -> Line
    ensures { result ≡ job_line job }
{
    let mut line = Line::of_word(b"job");
    line.number(job.0);
    line.end()
}

/// The line of a refused file of this kind, which is a word of 7 bytes at most.
pub fn refusal_line(file: &[u8], code: &FaultCode) -> Line
    requires { length file.now ≤ 7 }
    ensures { result ≡ refusal_text file.now code.now }
{
    let mut line = Line::of_word(file);
    line.word(b"refused");
    add_fault_code(&mut line, code);
    line.end()
}

/// The line of a record whose line of this number is bad.
pub fn bad_line(number: u32) -> Line
    ensures { result ≡ bad_line_text number }
{
    let mut line = Line::of_word(b"record");
    line.word(b"refused");
    line.number(number);
    line.end()
}

/// The line of a word that is no step.
pub fn step_line() -> Line
    ensures { result ≡ step_refused }
{
    Line::of_word(b"step refused").end()
}

fn add_fault_code(line: &mut Line, code: &FaultCode)
    requires { length line.old ≤ 15 }
    ensures words { line.new ≡ line.old ++ spaced (fault_code_words code.now) }
    ensures len { length line.new ≤ 120 }
{
    line.number(code.number);
    add_place(line, code.place);
    add_number(line, code.count);
}

fn add_place(line: &mut Line, place: Option<Place>)
    requires { length line.old ≤ 20 }
    ensures words { line.new ≡ line.old ++ spaced (option_map_or place_words place []) }
    ensures len { length line.new ≤ length line.old + 50 }
{
    if let Some(place) = place {
        line.word(section_word(place.section));
        add_item(line, place.section, place.item);
        add_field(line, place.field);
        add_number(line, place.at.map(u64::from));
    }
}

fn section_word(section: Section) -> &'static [u8]
    ensures word { result.now ≡ section_word section }
    ensures len { length result.now ≤ 8 }
{
    match section {
        Section::Top => b"top",
        Section::OfResource => b"resource",
        Section::OfJobType => b"type",
        Section::OfSession => b"session",
    }
}

// The number of the section; the whole document has none.
fn add_item(line: &mut Line, section: Section, item: u32)
    requires { length line.old ≤ 29 }
    ensures words { line.new ≡ line.old ++ spaced (item_words section item) }
    ensures len { length line.new ≤ length line.old + 11 }
{
    match section {
        Section::Top => {}
        Section::OfResource | Section::OfJobType | Section::OfSession => line.number(item),
    }
}

fn add_field(line: &mut Line, field: Field)
    requires { length line.old ≤ 40 }
    ensures words { line.new ≡ line.old ++ spaced (field_words field) }
    ensures len { length line.new ≤ length line.old + 9 }
{
    if let Some(word) = field_word(field) {
        line.word(word);
    }
}

// The key that a field stands for; the section itself has none.
fn field_word(field: Field) -> Option<&'static [u8]>
    ensures word { option_map (λ word. word.now) result ≡ field_word field }
    ensures len { IfSome result (λ word. length word.now ≤ 8) }
{
    let word: &'static [u8] = match field {
        Field::Whole => return None,
        Field::Version => b"version",
        Field::Resources => b"resource",
        Field::JobTypes => b"type",
        Field::Name => b"name",
        Field::Capacity => b"capacity",
        Field::Order => b"order",
        Field::Route => b"route",
        Field::Next => b"next",
        Field::Number => b"number",
        Field::Patience => b"patience",
        Field::Sessions => b"session",
        Field::Steps => b"steps",
        Field::Job => b"job",
        Field::Kind => b"type",
        Field::Path => b"path",
        Field::Machine => b"machine",
        Field::Turns => b"turns",
    };
    Some(word)
}

fn add_number(line: &mut Line, number: Option<u64>)
    requires { length line.old ≤ 100 }
    ensures words { line.new ≡ line.old ++ spaced (number_words number) }
    ensures len { length line.new ≤ length line.old + 21 }
{
    if let Some(number) = number {
        line.number(number);
    }
}
