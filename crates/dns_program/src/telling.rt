//! What a person is told on standard error of words and files that were refused. No clause tells of it, and that a line could not be written
//! changes nothing. What a person typed, or a file has, is told with its control characters escaped, so that each line stays one.

use dns_edges::{FileSource, read_to_end};
use dns_reasons::{Reason, Tool, Why, line_behind, reason_of};
use dns_words::command_words;
use dns_zone::ZoneTextKind;
use std::io::{ErrorKind, Read};
use std::{env, fs};

/// The greatest length of a file that is looked through for a line, in bytes: that of a zone text.
const BOUND: usize = 16_777_216;

/// Tells which of the words with which the program was started is wrong, or missing.
pub fn tell_words(rt: &HostRuntime, program: &str, tool: Tool) {
    if has_unread_word(rt) {
        tell_reason(rt, program, None, Why::Text);
        return;
    }
    if let Ok(words) = command_words(rt) {
        tell_these(rt, program, tool, words.as_slice());
    }
}

/// Tells which of these words is wrong, or missing.
pub fn tell_these(rt: &HostRuntime, program: &str, tool: Tool, words: &[String]) {
    if let Ok(Reason { word, why }) = reason_of(rt.alloc(), tool, words) {
        tell_reason(rt, program, word, why);
    }
}

/// Whether the words could not be read, since one of them is not UTF-8.
fn has_unread_word(rt: &HostRuntime) -> bool {
    match env::args(rt) {
        Ok(_) => false,
        Err(error) => match error.kind() {
            ErrorKind::OutOfMemory => false,
            _ => true,
        },
    }
}

/// Tells why this word is wrong, or what is missing.
fn tell_reason(rt: &HostRuntime, program: &str, word: Option<&str>, why: Why) {
    match word {
        None => {
            let _told = eprintln!(rt; "{program}: {why}; {program} --help tells more");
        }
        Some("") => {
            let _told = eprintln!(rt;
                "{program}: an empty word: {why}; {program} --help tells more"
            );
        }
        Some(word) => {
            let word = word.escape_debug();
            let _told = eprintln!(rt; "{program}: {word}: {why}; {program} --help tells more");
        }
    }
}

/// Tells why a file cannot be opened, or not be read, behind the key that names it. Nothing is told of one that can.
pub fn tell_file(rt: &HostRuntime, program: &str, key: &str, path: &str) {
    if is_stream(rt, path) {
        return;
    }
    let told = match fs::open(rt, path) {
        Err(error) => Err(error),
        Ok(mut file) => file.read(&mut [0u8; 1]),
    };
    if let Err(error) = told {
        let path = path.escape_debug();
        let _told = eprintln!(rt; "{program}: {key}{path}: {error}");
    }
}

/// Whether this is neither a file nor a folder: to open a pipe again would wait for a writer that may never come.
fn is_stream(rt: &HostRuntime, path: &str) -> bool {
    match fs::metadata(rt, path) {
        Ok(found) => !found.is_file() && !found.is_dir(),
        Err(_) => false,
    }
}

/// Tells which line of the zone text is wrong, with its text, and why.
pub fn tell_line(
    rt: &HostRuntime,
    program: &str,
    key: &str,
    path: Option<&str>,
    line: u64,
    kind: ZoneTextKind,
) {
    let Some(path) = path else {
        let _told = eprintln!(rt;
            "{program}: {key}PATH is missing: without a file of the zone text there is no zone"
        );
        return;
    };
    let why = why_refused(line, kind);
    let shown = path.escape_debug();
    if line == 0 {
        let _told = eprintln!(rt; "{program}: {key}{shown}: {why}");
        return;
    }
    let Some(text) = text_of(rt, path) else {
        let _told = eprintln!(rt; "{program}: {key}{shown}, line {line}: {why}");
        return;
    };
    let written = line_behind(text.as_slice(), line - 1).escape_ascii();
    let _told = eprintln!(rt; "{program}: {key}{shown}, line {line}: \"{written}\": {why}");
}

/// The text of a file, where it is one and can be read again.
fn text_of(rt: &HostRuntime, path: &str) -> Option<Vec<u8>> {
    if is_stream(rt, path) {
        return None;
    }
    let mut source = FileSource::new(Some(fs::open(rt, path)));
    read_to_end(rt.alloc(), &mut source, BOUND).ok()
}

/// What is wrong with an entry of a zone text that begins on this line, or with the whole text where that is line 0.
fn why_refused(line: u64, kind: ZoneTextKind) -> &'static str {
    match kind {
        ZoneTextKind::Paren => "a bracket is open at its end, or closes none",
        ZoneTextKind::Quote => "a quote is not closed on its line",
        ZoneTextKind::Directive => "the directives are $ORIGIN and $TTL; $INCLUDE is none here",
        ZoneTextKind::Name => "it begins with no domain name, and no name stands before it",
        ZoneTextKind::Ttl => {
            "no TTL: a number of seconds, as 3600 or 1h, is to stand before the type, or $TTL before the first record"
        }
        ZoneTextKind::RecordType => {
            "the type is not known: A, AAAA, NS, CNAME, PTR, MX, SRV, SOA, TXT, or another by its number, as TYPE257; the class is IN"
        }
        ZoneTextKind::Data => "the data is not of the form of its type",
        ZoneTextKind::OutOfZone => "its name is not at ORIGIN or below it",
        ZoneTextKind::NotOneSoa => soa_expected(line),
        ZoneTextKind::AliasBesideOther => {
            "a CNAME stands beside another type, or beside another CNAME, at one name"
        }
    }
}

fn soa_expected(line: u64) -> &'static str {
    match line {
        0 => "it has no SOA record, which is to stand at ORIGIN",
        _ => "one SOA record is to stand, at ORIGIN alone",
    }
}
