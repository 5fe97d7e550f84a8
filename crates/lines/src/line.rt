// A read line: its kind, with the fields as parts of the line.
ghost use Rattle.std.specs.Prelude.{◌≡◌, ◌≤◌, map, length, take};
ghost use Rattle.lines.specs.Parts.{Made, kind_of, parts_of, kind_in};

/// An input line by its kind, with the bytes of each field as they stand in the line.
#[derive(Clone, Copy)]
pub enum Line<'a> {
    Open {
        book: &'a [u8],
        day: &'a [u8],
        size: &'a [u8],
        block: &'a [u8],
    },
    Account {
        participant: &'a [u8],
        account_type: &'a [u8],
    },
    Series {
        right: &'a [u8],
        strike: &'a [u8],
        expiry: &'a [u8],
    },
    Trade {
        series: &'a [u8],
        buyer: &'a [u8],
        buyer_effect: &'a [u8],
        seller: &'a [u8],
        seller_effect: &'a [u8],
        quantity: &'a [u8],
        price: &'a [u8],
    },
    TradeTransfer {
        leg: &'a [u8],
        account: &'a [u8],
    },
    GiveUp {
        leg: &'a [u8],
        participant: &'a [u8],
    },
    TakeUp {
        leg: &'a [u8],
        answer: &'a [u8],
        account: &'a [u8],
    },
    PositionTransfer {
        from: &'a [u8],
        to: &'a [u8],
        series: &'a [u8],
        side: &'a [u8],
        quantity: &'a [u8],
    },
    Request {
        account: &'a [u8],
        series: &'a [u8],
        quantity: &'a [u8],
    },
    Reject {
        request: &'a [u8],
    },
    Criterion {
        account: &'a [u8],
        right: &'a [u8],
        form: &'a [u8],
        value: &'a [u8],
    },
    Denial {
        account: &'a [u8],
        series: &'a [u8],
        quantity: &'a [u8],
    },
    FixingPrice {
        price: &'a [u8],
    },
    Lodge {
        account: &'a [u8],
        shares: &'a [u8],
    },
    Withdraw {
        account: &'a [u8],
        shares: &'a [u8],
    },
    CloseTrading,
    Cut,
    TapeNumber {
        number: &'a [u8],
    },
    Assignment,
    Statement,
    NextDay {
        day: &'a [u8],
    },
}

/// A filled line: the input line before its answer, and the bytes of reply and result. There is no line where it stands
/// for a faulty input line, as kind 99 does.
#[derive(Clone, Copy)]
pub struct Filled<'a> {
    pub line: Option<Line<'a>>,
    pub reply: &'a [u8],
    pub result: &'a [u8],
}

/// The input line of a kind, with its fields from the front of `f`; none for a number that is no kind of input lines.
// Kept: any number may be given, by its promise; an enum of kinds would ask the caller for a known one.
pub fn line_of<'a>(kind: u8, f: &[&'a [u8]; 7]) -> Option<Line<'a>>
    ensures { Made kind f.now result }
{
    Some(match kind {
        10 => Line::Open {
            book: f[0],
            day: f[1],
            size: f[2],
            block: f[3],
        },
        11 => Line::Account {
            participant: f[0],
            account_type: f[1],
        },
        12 => Line::Series {
            right: f[0],
            strike: f[1],
            expiry: f[2],
        },
        13 => Line::Trade {
            series: f[0],
            buyer: f[1],
            buyer_effect: f[2],
            seller: f[3],
            seller_effect: f[4],
            quantity: f[5],
            price: f[6],
        },
        15 => Line::TradeTransfer {
            leg: f[0],
            account: f[1],
        },
        16 => Line::GiveUp {
            leg: f[0],
            participant: f[1],
        },
        17 => Line::TakeUp {
            leg: f[0],
            answer: f[1],
            account: f[2],
        },
        19 => Line::PositionTransfer {
            from: f[0],
            to: f[1],
            series: f[2],
            side: f[3],
            quantity: f[4],
        },
        20 => Line::Request {
            account: f[0],
            series: f[1],
            quantity: f[2],
        },
        21 => Line::Reject { request: f[0] },
        22 => Line::Criterion {
            account: f[0],
            right: f[1],
            form: f[2],
            value: f[3],
        },
        23 => Line::Denial {
            account: f[0],
            series: f[1],
            quantity: f[2],
        },
        24 => Line::FixingPrice { price: f[0] },
        25 => Line::Lodge {
            account: f[0],
            shares: f[1],
        },
        26 => Line::Withdraw {
            account: f[0],
            shares: f[1],
        },
        27 => Line::CloseTrading,
        28 => Line::Cut,
        29 => Line::TapeNumber { number: f[0] },
        30 => Line::Assignment,
        31 => Line::Statement,
        32 => Line::NextDay { day: f[0] },
        _ => return None,
    })
}

impl Line<'_> {
    /// The number of the line's kind.
    pub fn kind(&self) -> u8
        ensures { result ≡ kind_of self.now }
    {
        match self {
            Line::Open { .. } => 10,
            Line::Account { .. } => 11,
            Line::Series { .. } => 12,
            Line::Trade { .. } => 13,
            Line::TradeTransfer { .. } => 15,
            Line::GiveUp { .. } => 16,
            Line::TakeUp { .. } => 17,
            Line::PositionTransfer { .. } => 19,
            Line::Request { .. } => 20,
            Line::Reject { .. } => 21,
            Line::Criterion { .. } => 22,
            Line::Denial { .. } => 23,
            Line::FixingPrice { .. } => 24,
            Line::Lodge { .. } => 25,
            Line::Withdraw { .. } => 26,
            Line::CloseTrading => 27,
            Line::Cut => 28,
            Line::TapeNumber { .. } => 29,
            Line::Assignment => 30,
            Line::Statement => 31,
            Line::NextDay { .. } => 32,
        }
    }
}

impl Filled<'_> {
    /// The number of the line's kind: 99 where it stands for a faulty input line.
    pub fn kind(&self) -> u8
        ensures { result ≡ kind_in self.now.line }
    {
        match &self.line {
            Some(line) => line.kind(),
            None => 99,
        }
    }
}

// Puts `fields` at the front of `out`, and answers how many they are.
fn place<'a>(out: &mut [&'a [u8]; 7], fields: &[&'a [u8]]) -> usize
    requires { length fields.now ≤ 7 }
    ensures few { result ≤ 7 }
    ensures placed { map (λ f. f.now) (take result out.new) ≡ map (λ f. f.now) fields.now }
{
    out[..fields.len()].copy_from_slice(fields);
    fields.len()
}

/// Puts the fields of a line at the front of `out`, and answers how many they are.
// Kept: the count beside the array, since its promise is of what `out` holds; `fields_in` gives the fields alone.
pub fn fields_into<'a>(line: &Line<'a>, out: &mut [&'a [u8]; 7]) -> usize
    ensures few { result ≤ 7 }
    ensures placed { map (λ f. f.now) (take result out.new) ≡ parts_of line.now }
{
    match *line {
        Line::Open {
            book,
            day,
            size,
            block,
        } => place(out, &[book, day, size, block]),
        Line::Account {
            participant,
            account_type,
        } => place(out, &[participant, account_type]),
        Line::Series {
            right,
            strike,
            expiry,
        } => place(out, &[right, strike, expiry]),
        Line::Trade {
            series,
            buyer,
            buyer_effect,
            seller,
            seller_effect,
            quantity,
            price,
        } => place(
            out,
            &[
                series,
                buyer,
                buyer_effect,
                seller,
                seller_effect,
                quantity,
                price,
            ],
        ),
        Line::TradeTransfer { leg, account } => place(out, &[leg, account]),
        Line::GiveUp { leg, participant } => place(out, &[leg, participant]),
        Line::TakeUp {
            leg,
            answer,
            account,
        } => place(out, &[leg, answer, account]),
        Line::PositionTransfer {
            from,
            to,
            series,
            side,
            quantity,
        } => place(out, &[from, to, series, side, quantity]),
        Line::Request {
            account,
            series,
            quantity,
        } => place(out, &[account, series, quantity]),
        Line::Reject { request } => place(out, &[request]),
        Line::Criterion {
            account,
            right,
            form,
            value,
        } => place(out, &[account, right, form, value]),
        Line::Denial {
            account,
            series,
            quantity,
        } => place(out, &[account, series, quantity]),
        Line::FixingPrice { price } => place(out, &[price]),
        Line::Lodge { account, shares } => place(out, &[account, shares]),
        Line::Withdraw { account, shares } => place(out, &[account, shares]),
        Line::CloseTrading => 0,
        Line::Cut => 0,
        Line::TapeNumber { number } => place(out, &[number]),
        Line::Assignment => 0,
        Line::Statement => 0,
        Line::NextDay { day } => place(out, &[day]),
    }
}

/// The fields of a line, in `out`.
pub fn fields_in<'b, 'a>(line: &Line<'a>, out: &'b mut [&'a [u8]; 7]) -> &'b [&'a [u8]]
    ensures few { length result.now ≤ 7 }
    ensures placed { map (λ f. f.now) result.now ≡ parts_of line.now }
{
    let n = fields_into(line, out);
    &out[..n]
}
