//! Prints what the expander and the decoder make of instruction patterns, for a comparison with
//! another disassembler. Each line of standard input is one pattern in hexadecimal digits: four for a
//! 16-bit one, eight for a 32-bit one.
#![tactic(auto)]

use dt_decode::decode;
use dt_rvc::expand;
use std::io;

fn main(rt: HostRuntime) -> io::Result<()> {
    for line in rt.lines(rt.alloc()) {
        print_pattern(&rt, line?.as_str())?;
    }
    Ok(())
}

fn print_pattern(rt: &impl Print, digits: &str) -> io::Result<()> {
    let Ok(number) = u32::from_str_radix(digits, 16) else {
        return println!(rt; "{digits}: not a pattern");
    };
    match u16::try_from(number) {
        Ok(half) if digits.len() == 4 => print_half(rt, half),
        _ => print_word(rt, number),
    }
}

/// The 16-bit pattern, the word that it stands for, and what that word means.
fn print_half(rt: &impl Print, half: u16) -> io::Result<()> {
    match expand(half) {
        Some(word) => {
            let instr = decode(word);
            println!(rt; "{half:04x} {word:08x} {instr:?}")
        }
        None => println!(rt; "{half:04x} None"),
    }
}

/// The 32-bit pattern and what it means.
fn print_word(rt: &impl Print, word: u32) -> io::Result<()> {
    let instr = decode(word);
    println!(rt; "{word:08x} {instr:?}")
}
