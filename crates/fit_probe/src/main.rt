//! Tells what evidence fits, one case a line, as tests of `factor_chain`:
//!
//! | Line | Answered by |
//! |---|---|
//! | `password STORED HEX` | whether the password fits what is stored |
//! | `known PRIMARY SECONDARY NONCE HEX` | whether the fast answer to the nonce fits a digest of the account |
//! | `check PRIMARY SECONDARY LABELS EVIDENCE..` | what each of up to three pieces of evidence fits, and whether all fit |
//!
//! What is stored is `empty`, `native,HEX` or `sha2,THOUSANDS,SALT,SUM`. A primary or a secondary is that, `|` and a digest
//! or `-`. There is no account where the primary is `nobody`, and no secondary where it is `none`. Labels are joined by
//! commas, `-` is none. Evidence is `native,HEX`, `fast,HEX`, `full,HEX`, `empty` or `external,LABEL,accepted`. The lines and
//! their answers come from factor_chain/vectors/fits.py.
#![tactic(auto)]

mod evidence;
mod looks;

use factor_chain::{Checked, Fit, check, fits_password, known_fits};
use std::io;

fn word_of(fits: bool) -> &'static str {
    if fits { "fits" } else { "no" }
}

fn name_of(fit: Fit) -> &'static str {
    match fit {
        Fit::Nothing => "nothing",
        Fit::Primary => "primary",
        Fit::Secondary => "secondary",
        Fit::Factor => "factor",
    }
}

fn print_fits(rt: &HostRuntime, checked: &Checked) -> io::Result<()> {
    for index in 0..checked.evidences().len() {
        print!(rt; "{} ", name_of(checked.fit(index)))?;
    }
    println!(rt; "{}", word_of(checked.all_fit()))
}

fn answer_password(rt: &HostRuntime, stored: &str, password: &str) -> io::Result<()> {
    let (Some(stored), Ok(password)) = (
        looks::stored_of(rt.alloc(), stored),
        hex::decode(rt.alloc(), password),
    ) else {
        return println!(rt; "no line");
    };
    println!(rt; "{}", word_of(fits_password(&stored, password.as_slice())))
}

fn answer_known(rt: &HostRuntime, words: [&str; 4]) -> io::Result<()> {
    let [primary, secondary, nonce, response] = words;
    let look = looks::look(rt.alloc(), primary, secondary, "-");
    let (Ok(look), Ok(nonce), Ok(response)) = (
        look,
        <[u8; 20]>::try_from(nonce.as_bytes()),
        hex::decode(rt.alloc(), response),
    ) else {
        return println!(rt; "no line");
    };
    println!(rt;
        "{}",
        word_of(known_fits(&look, &nonce, response.as_slice()))
    )
}

fn answer_check(
    rt: &HostRuntime,
    account: [&str; 3],
    first: &str,
    further: &[&str],
) -> io::Result<()> {
    let [primary, secondary, labels] = account;
    let look = looks::look(rt.alloc(), primary, secondary, labels);
    let (Ok(look), Ok(Some(evidences))) = (look, evidence::evidences(rt.alloc(), first, further))
    else {
        return println!(rt; "no line");
    };
    print_fits(rt, &check(look, evidences))
}

fn answer(rt: &HostRuntime, words: &[&str]) -> io::Result<()> {
    match words {
        ["password", stored, password] => answer_password(rt, stored, password),
        ["known", primary, secondary, nonce, response] => {
            answer_known(rt, [*primary, *secondary, *nonce, *response])
        }
        ["check", primary, secondary, labels, first, further @ ..] => {
            answer_check(rt, [*primary, *secondary, *labels], first, further)
        }
        _ => println!(rt; "no line"),
    }
}

fn main(rt: HostRuntime) -> io::Result<()> {
    for line in rt.lines(rt.alloc()) {
        let line = line?;
        let words: Vec<&str> = line.as_str().split(' ').collect(rt.alloc())?;
        answer(&rt, words.as_slice())?;
    }
    Ok(())
}
