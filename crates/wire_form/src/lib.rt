//! A small grammar of wire formats. **What is read of a payload is spelled by it, what is spelled is read, a
//! fault is at the length of the longest front that goes on to a spelling, and what is written is read
//! back**: for every format that is put together of the fields and forms here, with no proof of its own.
//!
//! A field (specs/Fields.antt) relates a value to the bytes that spell it, by concatenation alone; a form
//! (specs/Forms.antt) does so for a whole payload. Beside the relation stand a reader on a cursor, the
//! values that are written, and what is written. proofs/Laws.antt says what ties these together, and each
//! kind of field and form is proved to meet that once. specs/Payloads.antt has the words for the contracts
//! of calls that read.
//!
//! It holds no code: a crate that reads a format writes a straight line over `lg_base::Reader` whose clause
//! says that it gives what the form's reader gives (`Steps` for a field, `Gives` for a form), and `read_as`
//! of proofs/Payloads.antt turns that into what the format says.
//!
//! The fields follow "Protocol Data Types" of the MySQL client/server protocol documentation.
#![tactic(auto)]
