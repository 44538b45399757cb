// The text of a line.
ghost use Rattle.std.specs.Prelude.{◌≡◌};
ghost use Rattle.ground.specs.Kit.{[]};
ghost use Rattle.house.specs.World.{World};
ghost use Rattle.text.specs.Ink.{ink, inked, put_all, put_on};
ghost use Rattle.player.specs.Playing.{played_by, spoken};
ghost use Rattle.player.specs.Lines.{number_text, digits_text, sense_text, shown_text, played_line, line_of};

use crate::Outcome;
use state::Sense;
use text::Line;

// A number and a space.
#[tactic(auto, using(text::proofs::Putting::put_behind))]
fn put_number(line: &mut Line, n: u64)
    ensures { inked line.new ≡ put_on (inked line.old) (number_text n) }
{
    line.put_decimal(n);
    line.put(b' ');
}

#[tactic(auto, using(text::proofs::Putting::put_behind), unfolding(crate::specs::Lines::digits_text))]
fn put_digits(line: &mut Line, b: u8)
    ensures { inked line.new ≡ put_on (inked line.old) (digits_text b) }
{
    line.put_hex(b);
    line.put(b' ');
}

#[tactic(auto, using(text::proofs::Putting::put_behind), unfolding(crate::specs::Lines::sense_text))]
fn put_sense(line: &mut Line, sense: Sense)
    ensures { inked line.new ≡ put_on (inked line.old) (sense_text sense) }
{
    put_digits(line, sense.0);
    put_digits(line, sense.1);
    put_digits(line, sense.2);
}

// The bytes of a pull, if there are any.
#[tactic(auto, using(text::proofs::Putting::put_behind), unfolding(crate::specs::Lines::shown_text, text::specs::Ink::put_all))]
fn put_shown(line: &mut Line, bytes: &[u8])
    ensures { inked line.new ≡ put_on (inked line.old) (shown_text bytes.now) }
{
    if !bytes.is_empty() {
        line.put(b' ');
        line.put_hexes(bytes);
    }
}

#[tactic(auto, using(text::proofs::Putting::put_behind, std::proofs::lemmas::List::take_min), unfolding(crate::specs::Lines::played_line))]
fn put_played(line: &mut Line, out: &[u8], number: u64, outcome: Outcome)
    ensures { inked line.new ≡ put_on (inked line.old) (played_line number (played_by outcome out.now [] [])) }
{
    put_number(line, number);
    put_number(line, u64::from(outcome.house));
    put_sense(line, outcome.state.host.sense);
    line.put_decimal(outcome.count as u64);
    put_shown(line, &out[..outcome.shown.min(out.len())]);
    line.put(b'\n');
}

// The line of a record, a bad one where there is no outcome.
#[tactic(auto, using(text::proofs::Putting::put_behind), unfolding(crate::specs::Lines::played_line, crate::specs::Lines::bad_line))]
fn put_line(line: &mut Line, out: &[u8], number: u64, played: Option<Outcome>)
    ensures { (w : World) → inked line.new
        ≡ put_on (inked line.old) (line_of number (spoken w.state played out.now w.buffer w.disc)) }
{
    match played {
        Some(outcome) => put_played(line, out, number, outcome),
        None => {
            line.put_decimal(number);
            line.put_all(b" bad\n");
        }
    }
}

// At the start of what is lent for it; how long it is.
pub(crate) fn lined(line: &mut [u8], out: &[u8], number: u64, played: Option<Outcome>) -> usize
    ensures { (w : World) → ink result line.new
        ≡ put_all (ink 0 line.old) (line_of number (spoken w.state played out.now w.buffer w.disc)) }
{
    let mut line = Line::new(line);
    put_line(&mut line, out, number, played);
    line.at
}
