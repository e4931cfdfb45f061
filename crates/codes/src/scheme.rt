// Schemes: a version over a base code that it goes with.
ghost use Rattle.std.specs.Prelude.{◌≡◌};
ghost use Rattle.tables.specs.Codewords.{Sound};
ghost use Rattle.tables.specs.Multipliers.{entry};
ghost use Rattle.tables.specs.declared.table.Table.{Table as Multipliers};
ghost use Rattle.codes.specs.Versions.{Admits};
ghost use Rattle.codes.specs.declared.version.Version.{Version as Kind};
ghost use Rattle.codes.specs.declared.version.Version.TheVariants as kind;

use crate::base::{BaseCode, PlainSecond};
use crate::encoder::Encoder;
use crate::version::Version;
use tables::table::Table;

pub trait Scheme {
    ghost version: { Self → Kind };

    ghost table: { Self → Multipliers };

    ghost sound: { (s : Self) → Sound (entry (table s)) };

    fn version(&self) -> Version
        ensures { result ≡ version self.now };

    // By what units are made.
    fn encoder(&self) -> Encoder
        ensures { result ≡ record { version = version self.now; table = table self.now } }
    {
        Encoder {
            version: self.version(),
            table: self.table(),
        }
    }

    fn table(&self) -> Table
        ensures { result ≡ table self.now };

    ghost admits: { (s : Self) → Admits (version s) (entry (table s)) };
}

// A version as a type, which goes with the base codes of type C.
pub trait GoesWith<C: BaseCode>: Sized {
    ghost version: { Kind };

    // The scheme of this version over a base code.
    fn over(self, code: C) -> Over<Self, C>
        ensures { result.code ≡ code }
    {
        Over { kind: self, code }
    }

    fn version() -> Version
        ensures { result ≡ version };

    ghost admits: { (c : C) → Admits version (entry (C.BaseCode.table c)) };
}

#[derive(Clone, Copy)]
pub struct Rs;

#[derive(Clone, Copy)]
pub struct Xor;

#[derive(Clone, Copy)]
pub struct XorPlus;

#[derive(Clone, Copy)]
pub struct NonXor;

impl<C: BaseCode> GoesWith<C> for Rs {
    ghost version = { kind.Rs };

    ghost admits = { λ _. tt };

    fn version() -> Version {
        Version::Rs
    }
}

impl<C: BaseCode> GoesWith<C> for Xor {
    ghost version = { kind.Xor };

    ghost admits = { λ _. tt };

    fn version() -> Version {
        Version::Xor
    }
}

// Its base codes have a second row of ten ones.
impl<C: PlainSecond> GoesWith<C> for XorPlus {
    ghost version = { kind.XorPlus };

    ghost admits = { C.PlainSecond.plain };

    fn version() -> Version {
        Version::XorPlus
    }
}

impl<C: BaseCode> GoesWith<C> for NonXor {
    ghost version = { kind.NonXor };

    ghost admits = { λ _. tt };

    fn version() -> Version {
        Version::NonXor
    }
}

// A version over a base code.
#[derive(Drop)]
pub struct Over<K: GoesWith<C>, C: BaseCode> {
    pub kind: K,
    pub code: C,
}

impl<C: BaseCode, K: GoesWith<C>> Scheme for Over<K, C> {
    ghost version = { λ _. K.GoesWith.version };

    ghost table = { λ s. C.BaseCode.table s.code };

    ghost sound = { λ s. C.BaseCode.sound s.code };

    ghost admits = { λ s. K.GoesWith.admits s.code };

    fn version(&self) -> Version {
        K::version()
    }

    fn table(&self) -> Table {
        self.code.table()
    }
}
