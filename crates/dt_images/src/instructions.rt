ghost use Rattle.std.specs.Prelude.{◌≡◌, ◌<◌};
ghost use Rattle.dt_images.specs.Formats.{immediate_form};
ghost use Rattle.dt_images.specs.RandomWord.{add_word, arithmetic_word, constant_word, destination, first_source, load_word, offset, operation_funct3, operation_funct7, random_word, reservation_word, rest, second_source, store_word};

/// fence rw,rw
const FENCE: u32 = 0x0330_000f;

/// The register that has the address of the data.
const POINTER: u32 = 30;

/// The word whose highest twelve bits are `high`, with the fields that all formats but U and J share.
fn immediate_form(high: u32, rs1: u32, funct3: u32, rd: u32, opcode: u32) -> u32
    requires high { high < 4096 }
    requires source { rs1 < 32 }
    requires operation { funct3 < 8 }
    requires destination { rd < 32 }
    requires opcode { opcode < 128 }
    ensures { result ≡ immediate_form high rs1 funct3 rd opcode }
{
    high * (1 << 20) + rs1 * (1 << 15) + funct3 * (1 << 12) + rd * (1 << 7) + opcode
}

fn destination(draw: u64) -> u32
    ensures value { result ≡ destination draw }
    ensures register { result < 32 }
{
    1 + ((draw >> 8) % 28) as u32
}

fn first_source(draw: u64) -> u32
    ensures value { result ≡ first_source draw }
    ensures register { result < 32 }
{
    ((draw >> 16) % 32) as u32
}

fn second_source(draw: u64) -> u32
    ensures value { result ≡ second_source draw }
    ensures register { result < 32 }
{
    ((draw >> 24) % 32) as u32
}

fn offset(draw: u64) -> u32
    ensures value { result ≡ offset draw }
    ensures within { result < 512 }
{
    8 * ((draw >> 32) % 64) as u32
}

fn rest(draw: u64) -> u64
    ensures { result ≡ rest draw }
{
    draw >> 40
}

/// The funct7 of an operation, by its place among ADD, SUB, SLL, SLT, SLTU, XOR, SRL, SRA, OR, AND and
/// the eight that multiply or divide.
fn operation_funct7(place: u32) -> u32
    ensures value { result ≡ operation_funct7 place }
    ensures field { result < 128 }
{
    if place == 1 || place == 7 {
        32
    } else if place < 10 {
        0
    } else {
        1
    }
}

/// The funct3 of an operation.
fn operation_funct3(place: u32) -> u32
    requires { place < 18 }
    ensures value { result ≡ operation_funct3 place }
    ensures field { result < 8 }
{
    if place == 0 {
        0
    } else if place < 7 {
        place - 1
    } else if place < 10 {
        place - 2
    } else {
        place - 10
    }
}

#[tactic(auto, unfolding(crate::specs::RandomWord::arithmetic_word))]
fn arithmetic_word(draw: u64) -> u32
    ensures { result ≡ arithmetic_word draw }
{
    let place = (rest(draw) % 18) as u32;
    let high = 32 * operation_funct7(place) + second_source(draw);
    immediate_form(
        high,
        first_source(draw),
        operation_funct3(place),
        destination(draw),
        0x33,
    )
}

#[tactic(auto, unfolding(crate::specs::RandomWord::constant_word))]
fn constant_word(draw: u64) -> u32
    ensures { result ≡ constant_word draw }
{
    let high = ((rest(draw) % 4096 + 2048) % 4096) as u32;
    immediate_form(high, first_source(draw), 0, destination(draw), 0x13)
}

#[tactic(auto, unfolding(crate::specs::RandomWord::load_word))]
fn load_word(draw: u64) -> u32
    ensures { result ≡ load_word draw }
{
    immediate_form(offset(draw), POINTER, 3, destination(draw), 0x03)
}

#[tactic(auto, unfolding(crate::specs::RandomWord::store_word))]
fn store_word(draw: u64) -> u32
    ensures { result ≡ store_word draw }
{
    let offset = offset(draw);
    let high = 32 * (offset / 32) + second_source(draw);
    immediate_form(high, POINTER, 3, offset % 32, 0x23)
}

#[tactic(auto, unfolding(crate::specs::RandomWord::add_word))]
fn add_word(draw: u64) -> u32
    ensures { result ≡ add_word draw }
{
    immediate_form(second_source(draw), POINTER, 3, destination(draw), 0x2f)
}

#[tactic(auto, unfolding(crate::specs::RandomWord::reservation_word))]
fn reservation_word(draw: u64) -> u32
    ensures { result ≡ reservation_word draw }
{
    if rest(draw) % 2 == 0 {
        immediate_form(0x100, POINTER, 3, destination(draw), 0x2f)
    } else {
        let high = 0x180 + second_source(draw);
        immediate_form(high, POINTER, 3, destination(draw), 0x2f)
    }
}

/// The word of a draw.
#[tactic(auto, unfolding(crate::specs::RandomWord::random_word))]
pub(crate) fn random_word(draw: u64) -> u32
    ensures { result ≡ random_word draw }
{
    let choice = draw % 16;
    if choice < 6 {
        arithmetic_word(draw)
    } else if choice < 8 {
        constant_word(draw)
    } else if choice < 11 {
        load_word(draw)
    } else if choice < 13 {
        store_word(draw)
    } else if choice == 13 {
        add_word(draw)
    } else if choice == 14 {
        reservation_word(draw)
    } else {
        FENCE
    }
}
