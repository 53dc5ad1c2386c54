//! One line of a file.

/// A call at one type, its operand, and the answer, as text.
#[derive(Clone, Copy)]
pub struct Fact<'a> {
    pub type_name: &'a str,
    pub call: &'a str,
    pub operand: &'a str,
    pub answer: &'a str,
}

impl<'a> Fact<'a> {
    /// Reads `TYPE CALL ; operand ; answer`; none where the line has another form.
    pub fn parse(line: &'a str) -> Option<Fact<'a>> {
        let (head, rest) = line.split_once(" ; ")?;
        let (type_name, call) = head.split_once(' ')?;
        let (operand, answer) = rest.rsplit_once(" ; ")?;
        Some(Fact {
            type_name,
            call,
            operand,
            answer,
        })
    }
}
