// Numbers, vectors and lists of numbers as text.
#![tactic(auto)]

ghost use Rattle.std.specs.Prelude.{Some};
ghost use Rattle.numbers.specs.Texts.{number_text, row_text, six_text, list_text};

use ring::Ring;
use std::fmt;
use triple::Triple;

// A number by its parts, with a comma between them.
#[derive(Drop)]
pub struct Number<R>(pub R);

impl<R: Ring> fmt::Display for Number<R> {
    ghost output = { λ number. Some (number_text (R.Ring.parts (R.Ring.value number.0))) };

    fn fmt<W: fmt::Write>(&self, f: &mut fmt::Formatter<W>) -> fmt::Result {
        for i in 0..R::part_count() {
            if i > 0 {
                f.write_str(",")?;
            }
            if let Some(part) = self.0.part(i) {
                write!(f, "{part}")?;
            }
        }
        Ok(())
    }
}

// The three entries, with blanks between them.
#[derive(Drop)]
pub struct Row<R>(pub Triple<R>);

impl<R: Ring> fmt::Display for Row<R> {
    ghost output = { λ row. Some (row_text (λ x. number_text (R.Ring.parts (R.Ring.value x))) row.0) };

    fn fmt<W: fmt::Write>(&self, f: &mut fmt::Formatter<W>) -> fmt::Result {
        let x = Number(self.0.x);
        let y = Number(self.0.y);
        let z = Number(self.0.z);
        write!(f, "{x} {y} {z}")
    }
}

// The two triples of a motion or a force, with a semicolon between them.
#[derive(Drop)]
pub struct Six<R>(pub Triple<R>, pub Triple<R>);

impl<R: Ring> fmt::Display for Six<R> {
    ghost output = { λ six. Some (six_text (λ x. number_text (R.Ring.parts (R.Ring.value x))) six.0 six.1) };

    fn fmt<W: fmt::Write>(&self, f: &mut fmt::Formatter<W>) -> fmt::Result {
        let first = Row(self.0);
        let second = Row(self.1);
        write!(f, "{first}; {second}")
    }
}

// A list of numbers, with blanks between them.
#[derive(Drop)]
pub struct List<'a, R>(pub &'a [R]);

impl<'a, R: Ring> fmt::Display for List<'a, R> {
    ghost output = { λ list. Some (list_text (λ x. number_text (R.Ring.parts (R.Ring.value x))) list.0.now) };

    fn fmt<W: fmt::Write>(&self, f: &mut fmt::Formatter<W>) -> fmt::Result {
        for (i, x) in self.0.iter().enumerate() {
            if i > 0 {
                f.write_str(" ")?;
            }
            let number = Number(*x);
            write!(f, "{number}")?;
        }
        Ok(())
    }
}
