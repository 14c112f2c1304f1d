// From bytes to parts.
ghost use Rattle.std.specs.Int.{w16, w32, w64};
ghost use Rattle.std.specs.Prelude.{◌≡◌, length};
ghost use Rattle.wf_callbacks.specs.Plain.{plain_method, plain_visitor};
ghost use Rattle.wf_record_parts.specs.Faults.{ReadsOff};
ghost use Rattle.wf_record_parts.specs.Reading.{byte_at, number_at, string_at, text_at, field_at, headers_at, method_at, visitor_at, response_at, reply_at};
ghost use Rattle.wf_record_parts.specs.View.{response_view, reply_view};

use crate::fault::ReadFault;
use crate::reply::{Reply, Response};
use std::alloc::Global;
use std::marker::Model;
use wf_callbacks::{Fields, Method, Visitor};
use wf_value::{Bytes, Text};

/// The bytes of a record that are still to read. Each call takes a part from the front, or says how
/// many bytes were left where no such part stands. After a fault the reader is done with: what is
/// left then isn't told.
#[derive(Drop)]
pub struct Reader<'a> {
    rest: &'a [u8],
}

impl<'a> Model for Reader<'a> {
    ghost use Rattle.std.specs.Prelude.{List, ℕ};

    ghost Value = { List ℕ };

    ghost view = { λ r. r.rest.now };
}

impl<'a> Reader<'a> {
    /// All of these bytes are still to read.
    pub fn new(bytes: &'a [u8]) -> Reader<'a>
        ensures { result ≡ bytes.now }
    {
        Reader { rest: bytes }
    }

    /// How many bytes are left.
    pub fn left(&self) -> usize
        ensures { result ≡ length self.now }
    {
        self.rest.len()
    }

    /// One byte.
    pub fn byte(&mut self) -> Result<u8, ReadFault>
        ensures { ReadsOff (λ n. n) result self.new (byte_at self.old) }
    {
        let Some((first, rest)) = self.rest.split_first() else {
            return Err(ReadFault::NoPart(0));
        };
        self.rest = rest;
        Ok(*first)
    }

    /// A number of 16 bits, its highest byte first.
    pub fn u16(&mut self) -> Result<u16, ReadFault>
        ensures { ReadsOff (λ n. n) result self.new (number_at w16 self.old) }
    {
        let Some((number, rest)) = self.rest.split_first_chunk::<2>() else {
            return Err(ReadFault::NoPart(self.rest.len()));
        };
        self.rest = rest;
        Ok(u16::from_be_bytes(*number))
    }

    /// A number of 32 bits, its highest byte first.
    pub fn u32(&mut self) -> Result<u32, ReadFault>
        ensures { ReadsOff (λ n. n) result self.new (number_at w32 self.old) }
    {
        let Some((number, rest)) = self.rest.split_first_chunk::<4>() else {
            return Err(ReadFault::NoPart(self.rest.len()));
        };
        self.rest = rest;
        Ok(u32::from_be_bytes(*number))
    }

    /// A number of 64 bits, its highest byte first.
    pub fn u64(&mut self) -> Result<u64, ReadFault>
        ensures { ReadsOff (λ n. n) result self.new (number_at w64 self.old) }
    {
        let Some((number, rest)) = self.rest.split_first_chunk::<8>() else {
            return Err(ReadFault::NoPart(self.rest.len()));
        };
        self.rest = rest;
        Ok(u64::from_be_bytes(*number))
    }

    /// A string: four bytes of length, and that many bytes, which are lent.
    #[tactic(auto, unfolding(crate::specs::Reading::string_at))]
    pub fn string(&mut self) -> Result<&'a [u8], ReadFault>
        ensures { ReadsOff (λ s. s.now) result self.new (string_at self.old) }
    {
        let left = self.left();
        let length = self.u32()? as usize;
        let Some((string, rest)) = self.rest.split_at_checked(length) else {
            return Err(ReadFault::NoPart(left));
        };
        self.rest = rest;
        Ok(string)
    }

    /// A string, copied.
    pub fn bytes(&mut self, alloc: Global) -> Result<Bytes, ReadFault>
        ensures { ReadsOff (λ s. s) result self.new (string_at self.old) }
    {
        Ok(Bytes::new(alloc, self.string()?)?)
    }

    /// A string in UTF-8, copied. Where the string isn't UTF-8, no text stands at its first byte.
    #[tactic(auto, unfolding(crate::specs::Reading::text_at))]
    pub fn text(&mut self, alloc: Global) -> Result<Text, ReadFault>
        ensures { ReadsOff (λ t. t) result self.new (text_at self.old) }
    {
        let left = self.left();
        match str::from_utf8(self.string()?) {
            Ok(text) => Ok(Text::new(alloc, text)?),
            Err(_) => Err(ReadFault::NoPart(left)),
        }
    }

    /// A field of a head: its name and its value, each a string.
    #[tactic(auto, unfolding(crate::specs::Reading::field_at))]
    fn field(&mut self, alloc: Global) -> Result<(Bytes, Bytes), ReadFault>
        ensures { ReadsOff (λ f. f) result self.new (field_at self.old) }
    {
        let name = self.bytes(alloc)?;
        let value = self.bytes(alloc)?;
        Ok((name, value))
    }

    /// The fields of a head: four bytes of count, and each field.
    #[tactic(auto, unfolding(crate::specs::Reading::list_at))]
    pub fn fields(&mut self, alloc: Global) -> Result<Fields, ReadFault>
        ensures { ReadsOff (λ fs. fs) result self.new (headers_at self.old) }
    {
        let count = self.u32()?;
        let mut fields = Fields::new(alloc)?;
        for _ in 0..count {
            let (name, value) = self.field(alloc)?;
            fields.push(name, value)?;
        }
        Ok(fields)
    }

    /// A method, by one byte from 0 to 5.
    #[tactic(auto, unfolding(crate::specs::Reading::method_at))]
    pub fn method(&mut self) -> Result<Method, ReadFault>
        ensures { ReadsOff plain_method result self.new (method_at self.old) }
    {
        let left = self.left();
        match self.byte()? {
            0 => Ok(Method::Get),
            1 => Ok(Method::Post),
            2 => Ok(Method::Put),
            3 => Ok(Method::Patch),
            4 => Ok(Method::Delete),
            5 => Ok(Method::Options),
            _ => Err(ReadFault::NoPart(left)),
        }
    }

    /// A request that came to an endpoint: its method, its fields and its body.
    #[tactic(auto, unfolding(crate::specs::Reading::visitor_at))]
    pub fn visitor(&mut self, alloc: Global) -> Result<Visitor, ReadFault>
        ensures { ReadsOff plain_visitor result self.new (visitor_at self.old) }
    {
        Ok(Visitor {
            method: self.method()?,
            headers: self.fields(alloc)?,
            body: self.bytes(alloc)?,
        })
    }

    /// A whole response: its code, its fields and its body.
    #[tactic(auto, unfolding(crate::specs::Reading::response_at))]
    fn response(&mut self, alloc: Global) -> Result<Response, ReadFault>
        ensures { ReadsOff response_view result self.new (response_at self.old) }
    {
        Ok(Response {
            code: self.u16()?,
            headers: self.fields(alloc)?,
            body: self.bytes(alloc)?,
        })
    }

    /// What was kept of the answer to a call: a byte from 0 to 2, and behind 0 the response.
    #[tactic(auto, unfolding(crate::specs::Reading::reply_at))]
    pub fn reply(&mut self, alloc: Global) -> Result<Reply, ReadFault>
        ensures { ReadsOff reply_view result self.new (reply_at self.old) }
    {
        let left = self.left();
        match self.byte()? {
            0 => Ok(Reply::Response(self.response(alloc)?)),
            1 => Ok(Reply::Broken),
            2 => Ok(Reply::TooLong),
            _ => Err(ReadFault::NoPart(left)),
        }
    }
}
