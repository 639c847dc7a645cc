//! Data in small letters (RFC 1035 2.3.3).

ghost use Rattle.std.specs.Prelude.{◌≡◌, IfOk};
ghost use Rattle.dns_name.specs.Name.{IsName, fold_of};
ghost use Rattle.dns_wire.specs.Folds.{fold_data};
ghost use Rattle.dns_wire.specs.ReadBack.{IsData};
ghost use Rattle.dns_wire.specs.Texts.{AreTexts};

use crate::boxed_name::BoxedName;
use crate::rdata::Data;
use crate::texts::Texts;
use dns_io::OutOfMemory;
use dns_name::Name;
use std::alloc::Global;

impl Data {
    /// The data with the ASCII capitals of its names made small.
    pub fn folded(&self, alloc: Global) -> Result<Data, OutOfMemory>
        ensures small { IfOk result (λ small. small ≡ fold_data self.now) }
        // What all data keeps to.
        ensures kept { IfOk result (λ small. IsData self.now) }
    {
        match self {
            Data::A(address) => Ok(Data::A(*address)),
            Data::Aaaa(address) => Ok(Data::Aaaa(address.copy())),
            Data::Ns(host) => Ok(Data::Ns(folded_name(alloc, host)?)),
            Data::Cname(target) => Ok(Data::Cname(folded_name(alloc, target)?)),
            Data::Ptr(target) => Ok(Data::Ptr(folded_name(alloc, target)?)),
            Data::Mx {
                preference,
                exchange,
            } => Ok(Data::Mx {
                preference: *preference,
                exchange: folded_name(alloc, exchange)?,
            }),
            Data::Srv {
                priority,
                weight,
                port,
                target,
            } => Ok(Data::Srv {
                priority: *priority,
                weight: *weight,
                port: *port,
                target: folded_name(alloc, target)?,
            }),
            Data::Soa {
                mname,
                rname,
                serial,
                refresh,
                retry,
                expire,
                minimum,
            } => Ok(Data::Soa {
                mname: folded_in_a_box(alloc, mname)?,
                rname: folded_in_a_box(alloc, rname)?,
                serial: *serial,
                refresh: *refresh,
                retry: *retry,
                expire: *expire,
                minimum: *minimum,
            }),
            Data::Txt(texts) => Ok(Data::Txt(copied_texts(texts)?)),
            Data::Opaque(bytes) => Ok(Data::Opaque(bytes.clone()?)),
            Data::Empty => Ok(Data::Empty),
        }
    }
}

/// A name in small letters; what a name keeps to is told with its length.
fn folded_name(alloc: Global, name: &Name) -> Result<Name, OutOfMemory>
    ensures small { IfOk result (λ small. small ≡ fold_of name.now) }
    ensures kept { IfOk result (λ small. IsName name.now) }
{
    let _ = name.len();
    name.folded(alloc)
}

fn folded_in_a_box(alloc: Global, name: &BoxedName) -> Result<BoxedName, OutOfMemory>
    ensures small { IfOk result (λ small. small ≡ fold_of name.now) }
    ensures kept { IfOk result (λ small. IsName name.now) }
{
    BoxedName::new(alloc, folded_name(alloc, name.as_name())?)
}

/// A copy of byte strings; what they keep to is told where they are gone through.
fn copied_texts(texts: &Texts) -> Result<Texts, OutOfMemory>
    ensures same { IfOk result (λ copy. copy ≡ texts.now) }
    ensures kept { IfOk result (λ copy. AreTexts texts.now) }
{
    let _ = texts.iter();
    Ok(texts.clone()?)
}
