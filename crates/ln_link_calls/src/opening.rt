//! The two ends of a new channel, by named numbers.

use crate::end::End;
use crate::line::filled;
use ln_bytes::{Bytes, Record};
use ln_channel::{Config, FitConfig, FitSpec, OpenSpec, Points};
use ln_keys::ToyKeys;
use ln_link::Link;
use ln_log::Limits;
use ln_msgs::Records;
use ln_named_lines::number_or;
use ln_tests_ends::{bytes_of, code};
use std::alloc::{AllocError, Global};

/// What a line doesn't say of a side: its points are bytes from one on, its script is one byte.
#[derive(Clone, Copy)]
struct Own {
    first_point: u8,
    dust_limit: u64,
    to_self_delay: u16,
    minimum_depth: u32,
    script: u8,
}

const FUNDER: Own = Own {
    first_point: 0x11,
    dust_limit: 546,
    to_self_delay: 144,
    minimum_depth: 3,
    script: 65,
};

const FUNDEE: Own = Own {
    first_point: 0x21,
    dust_limit: 354,
    to_self_delay: 6,
    minimum_depth: 7,
    script: 66,
};

/// What a line says of a side: its limits, and its first, least and greatest closing fee.
#[derive(Clone, Copy)]
struct Terms {
    limits: Limits,
    first: u64,
    least: u64,
    greatest: u64,
}

/// The funder's terms: what a line leaves out is as usual.
fn funder_terms(words: &[&str]) -> Terms {
    Terms {
        limits: Limits {
            minimum: number_or(words, "a_minimum", 1),
            accepted: code(number_or(words, "a_accepted", 30)),
            in_flight: number_or(words, "a_in_flight", 1_000_000_000_000),
            reserve: number_or(words, "a_reserve", 0),
        },
        first: number_or(words, "a_fee", 300),
        least: number_or(words, "a_least", 200),
        greatest: number_or(words, "a_greatest", 400),
    }
}

/// The fundee's.
fn fundee_terms(words: &[&str]) -> Terms {
    Terms {
        limits: Limits {
            minimum: number_or(words, "b_minimum", 1),
            accepted: code(number_or(words, "b_accepted", 30)),
            in_flight: number_or(words, "b_in_flight", 1_000_000_000_000),
            reserve: number_or(words, "b_reserve", 0),
        },
        first: number_or(words, "b_fee", 400),
        least: number_or(words, "b_least", 350),
        greatest: number_or(words, "b_greatest", 500),
    }
}

fn points(first: u8) -> Points {
    Points {
        funding_pubkey: [first; 33],
        revocation_basepoint: [first.wrapping_add(1); 33],
        payment_basepoint: [first.wrapping_add(2); 33],
        delayed_payment_basepoint: [first.wrapping_add(3); 33],
        htlc_basepoint: [first.wrapping_add(4); 33],
    }
}

/// What a side opens channels with.
fn config(alloc: Global, own: &Own, terms: &Terms) -> Result<Box<Config>, AllocError> {
    let script = Bytes::new(filled(alloc, own.script, 1)?);
    let config = Box::new(
        alloc,
        Config {
            limits: terms.limits,
            chain_hash: [6; 32],
            dust_limit: own.dust_limit,
            to_self_delay: own.to_self_delay,
            minimum_depth: own.minimum_depth,
            points: points(own.first_point),
            first: terms.first,
            least: terms.least,
            greatest: terms.greatest,
            script,
        },
    )?;
    Ok(config)
}

/// Keys of a side: their seed, their tag and the other side's.
fn keys(seed: u64, own: u64, other: u64) -> ToyKeys {
    ToyKeys {
        seed: bytes_of(seed.wrapping_add(own)),
        tag: bytes_of(own),
        peer_tag: bytes_of(other),
    }
}

/// A script told upfront and a channel type of so many bytes; no record for none.
fn records(alloc: Global, count: u64) -> Result<Records, AllocError> {
    let mut all = Vec::new(alloc);
    if count > 0 {
        let script = Bytes::from_slice(alloc, &[0, 20])?;
        all.push(Record {
            typ: 0,
            value: script,
        })?;
        let value = Bytes::new(filled(alloc, 16, count)?);
        all.push(Record { typ: 1, value })?;
    }
    Ok(Records::new(all))
}

fn spec(alloc: Global, words: &[&str]) -> Result<Box<OpenSpec>, AllocError> {
    let records = records(alloc, number_or(words, "types", 0))?;
    let config = config(alloc, &FUNDER, &funder_terms(words))?;
    let spec = Box::new(
        alloc,
        OpenSpec {
            config: Box::into_inner(config),
            funding: number_or(words, "funding", 1_000_000),
            push: number_or(words, "push", 0),
            feerate: 253,
            flags: 1,
            temporary_id: [255; 32],
            txid: [9; 32],
            output: 258,
            records,
        },
    )?;
    Ok(spec)
}

/// The funder's end; none where a value doesn't fit.
pub fn funder(alloc: Global, words: &[&str]) -> Result<Option<Box<End>>, AllocError> {
    let spec = spec(alloc, words)?;
    if !spec.fits() {
        return Ok(None);
    }
    let keys = keys(number_or(words, "seed", 1), 1, 2);
    let link = Box::new(
        alloc,
        Link::funder(keys, FitSpec::new(Box::into_inner(spec))),
    )?;
    Ok(Some(End::new(alloc, 'A', keys, link)?))
}

/// The fundee's.
pub fn fundee(alloc: Global, words: &[&str]) -> Result<Option<Box<End>>, AllocError> {
    let config = config(alloc, &FUNDEE, &fundee_terms(words))?;
    if !config.fits() {
        return Ok(None);
    }
    let keys = keys(number_or(words, "seed", 1), 2, 1);
    let link = Box::new(
        alloc,
        Link::fundee(keys, FitConfig::new(Box::into_inner(config))),
    )?;
    Ok(Some(End::new(alloc, 'B', keys, link)?))
}
