//! The rules of scripts, as sentences.
use script_text::line::Rule;

/// What a line that breaks the rule has wrong.
pub fn sentence(rule: Rule) -> &'static str {
    match rule {
        Rule::ScriptTooLong =>
            "the script has more than 1,048,576 bytes, and the first beyond them stands in this line",
        Rule::TooManyLines => "the script has more than 20,000 lines",
        Rule::TooLong => "the line has more than 512 bytes",
        Rule::Byte => "the line has a byte that is no printed ASCII character and no space",
        Rule::Spaces =>
            "words are separated by one space, and none stands at the line's beginning or end",
        Rule::Word => "a word of the line isn't one that may stand there",
        Rule::Count => "the line has too few words or too many",
        Rule::Node => "the node isn't one of the run's: n1 up to as many as --nodes says",
        Rule::Session =>
            "a session is 1 to 16 lower-case letters and digits, and no word of the language",
        Rule::Number => "an amount is the decimal text of a number of 64 bits with sign",
        Rule::Key => "a key has 1 to 64 characters",
        Rule::Value => "a value has 1 to 256 characters",
        Rule::Retired => "the node has left by an earlier line",
        Rule::Moved => "the session stays at the node of its first line",
        Rule::Sessions => "a script has at most 64 sessions",
    }
}
