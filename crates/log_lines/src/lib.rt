// A line of a day's log as an order.
#![tactic(auto, using(crate::specs::FieldByField::letter_laws, crate::specs::FieldByField::line_laws))]

ghost use Rattle.std.specs.Prelude.{◌≡◌, ◌≤◌, length, drop};
ghost use Rattle.text_lines.specs.Lines.{fields};
ghost use Rattle.log_lines.specs.Forms.{parsed};
ghost use Rattle.log_lines.specs.Replay.{letter_of};
ghost use Rattle.log_lines.specs.FieldByField.{form_alone, form_one, form_two, form_three, last_form, next_form, first_form};

#[derive(Clone, Copy)]
pub enum Order {
    // F
    Format,
    // I: key, address
    Insert(u32, u32),
    // D: key
    Delete(u32),
    // L: key
    Lookup(u32),
    // S: key, address, allowance
    Limited(u32, u32, u32),
}

// The letter by which an order is answered.
pub fn letter_of(order: Order) -> u8
    ensures { result ≡ letter_of order }
{
    match order {
        Order::Format => b'F',
        Order::Insert(_, _) => b'I',
        Order::Delete(_) => b'D',
        Order::Lookup(_) => b'L',
        Order::Limited(_, _, _) => b'S',
    }
}

fn form_alone(letter: u8) -> Option<Order>
    ensures { result ≡ form_alone letter }
{
    match letter {
        b'F' => Some(Order::Format),
        _ => None,
    }
}

fn form_one(letter: u8, key: u32) -> Option<Order>
    ensures { result ≡ form_one letter key }
{
    match letter {
        b'D' => Some(Order::Delete(key)),
        b'L' => Some(Order::Lookup(key)),
        _ => None,
    }
}

fn form_two(letter: u8, key: u32, address: u32) -> Option<Order>
    ensures { result ≡ form_two letter key address }
{
    match letter {
        b'I' => Some(Order::Insert(key, address)),
        _ => None,
    }
}

fn form_three(letter: u8, key: u32, address: u32, allowance: u32) -> Option<Order>
    ensures { result ≡ form_three letter key address allowance }
{
    match letter {
        b'S' => Some(Order::Limited(key, address, allowance)),
        _ => None,
    }
}

// The third number, from its place on, and the line's end.
fn last_form(s: &[u8], from: usize, letter: u8, key: u32, address: u32) -> Option<Order>
    requires { from ≤ length s.now }
    ensures { result ≡ last_form letter key address (fields (drop from s.now)) }
{
    let end = text_lines::piece_end(s, from, b'\t');
    if end < s.len() {
        return None;
    }
    let allowance = text_decimals::parse_number(&s[from..end])?;
    form_three(letter, key, address, allowance)
}

// The second number, and what comes after it.
fn next_form(s: &[u8], from: usize, letter: u8, key: u32) -> Option<Order>
    requires { from ≤ length s.now }
    ensures { result ≡ next_form letter key (fields (drop from s.now)) }
{
    let end = text_lines::piece_end(s, from, b'\t');
    let address = text_decimals::parse_number(&s[from..end])?;
    if end < s.len() {
        return last_form(s, end + 1, letter, key, address);
    }
    form_two(letter, key, address)
}

// The first number, and what comes after it.
fn first_form(s: &[u8], from: usize, letter: u8) -> Option<Order>
    requires { from ≤ length s.now }
    ensures { result ≡ first_form letter (fields (drop from s.now)) }
{
    let end = text_lines::piece_end(s, from, b'\t');
    let key = text_decimals::parse_number(&s[from..end])?;
    if end < s.len() {
        return next_form(s, end + 1, letter, key);
    }
    form_one(letter, key)
}

// A line without its byte 10.
pub fn parse_line(s: &[u8]) -> Option<Order>
    ensures { result ≡ parsed s.now }
{
    if text_lines::piece_end(s, 0, b'\t') != 1 {
        return None;
    }
    let letter = s[0];
    if s.len() == 1 {
        return form_alone(letter);
    }
    first_form(s, 2, letter)
}
