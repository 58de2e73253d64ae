//! The line of what an audit found.

ghost use Rattle.std.specs.Prelude.{◌≡◌, ◌≤◌, ◌++◌, None, length};
ghost use Rattle.fb_text.specs.Written.{line_bytes};
ghost use Rattle.audit_text.specs.AuditText.{finding_words, harm_word, verdict, verdict_words};

use audit::{Audit, Finding, Harm};
use fb_text::Text;

/// The word of a harm.
fn harm_word(harm: Harm) -> &'static str
    ensures word { result.now ≡ harm_word harm }
    ensures short { length result.now ≤ 6 }
{
    match harm {
        Harm::Reply => "reply",
        Harm::Owners => "owners",
        Harm::Shared => "shared",
        Harm::Words => "words",
        Harm::Memory => "memory",
    }
}

/// Appends the line of an audit that found nothing in so many events.
fn write_sound(events: u64, text: &mut Text)
    requires { 64 ≤ text.old.spare }
    ensures { text.new.bytes ≡ text.old.bytes ++ line_bytes (verdict_words events None) }
{
    text.push(b"sound ");
    text.number(events);
    text.push(b"\n");
}

/// Appends the line of a finding.
fn write_finding(finding: Finding, text: &mut Text)
    requires { 64 ≤ text.old.spare }
    ensures { text.new.bytes ≡ text.old.bytes ++ line_bytes (finding_words finding) }
{
    text.push(b"unsound ");
    text.number(u64::from(finding.event));
    text.push(b" ");
    text.push(harm_word(finding.harm).as_bytes());
    text.push(b" ");
    text.number(u64::from(finding.line.0));
    text.push(b"\n");
}

/// Appends the line of what an audit found.
pub fn write_verdict(audit: &Audit, text: &mut Text)
    requires { 64 ≤ text.old.spare }
    ensures { text.new.bytes ≡ text.old.bytes ++ verdict audit.now }
{
    let events = audit.journal().len() as u64;
    match audit.finding() {
        None => write_sound(events, text),
        Some(finding) => write_finding(finding, text),
    }
}
