//! One run of each command that ends with 0.
use crate::case::File;

/// y(k) = u(k) / 2.
pub const HALF: &[u8] =
    b"form = \"tf\"\nb = [\"0.5\"]\na = [\"1\"]\ninputs = [{ width = 16, bound = 100 }]\n\
      outputs = [{ width = 16, error = \"1\" }]\naccumulator = 32\n";

pub const HALF_CODE: &[u8] =
    b"#include \"fixif.h\"\nSTEP(32, 1, 1, 1)\n{\n  IN(u0, 16);\n  a = 1;\n  a += MUL(1, u0, 0);\n\
      \x20 r0 = LOW(SAR(a, 1), 16);\n  OUT(0, r0);\n  s0 = r0;\n}\n";

pub const HALF_CERT: &[u8] =
    b"fixif certificate 1\nlength 1\nrows 2\nX 51\nX 50\noutputs 1\nE 9223372036854775808\nend\n";

/// y(k) = u(k) + y(k - 1) / 2, with one grid and one length to try.
pub const POLE: &[u8] = b"form = \"tf\"\nb = [\"1\"]\na = [\"1\", \"-0.5\"]\n\
      inputs = [{ width = 16, bound = 100 }]\noutputs = [{ width = 16, error = \"3\" }]\n\
      accumulator = 64\nguards = [0]\nfractions = [14]\nlengths = [64]\n";

const POLE_CODE: &[u8] =
    b"#include \"fixif.h\"\nSTEP(64, 1, 3, 1)\n{\n  IN(u0, 16);\n  a = 1;\n  a += MUL(1, s1, 0);\n\
      \x20 a += MUL(1, u0, 1);\n  r0 = LOW(SAR(a, 1), 9);\n  a = 0;\n  a += MUL(1, r0, 0);\n\
      \x20 r1 = LOW(SAR(a, 0), 9);\n  a = 0;\n  a += MUL(1, r0, 0);\n  r2 = LOW(SAR(a, 0), 16);\n\
      \x20 OUT(0, r2);\n  s0 = r0;\n  s1 = r1;\n  s2 = r2;\n}\n";

const POLE_CERT: &[u8] = b"fixif certificate 1\nlength 64\nrows 4\nX 201\nX 201\nX 201\nX 200\n\
      outputs 1\nE 18446744073709552016\nend\n";

/// Code for it, of one row.
pub const POLE_ROW: &[u8] =
    b"#include \"fixif.h\"\nSTEP(32, 1, 1, 1)\n{\n  IN(u0, 16);\n  a = 1;\n  a += MUL(1, s0, 0);\n\
      \x20 a += MUL(1, u0, 1);\n  r0 = LOW(SAR(a, 1), 16);\n  OUT(0, r0);\n  s0 = r0;\n}\n";

pub const SAMPLES: &[u8] = b"100\n0\n0\n0\n";

/// y(k) = u(k) - y(k - 1) / 2, with blocks of 4 moments.
const TURNING: &[u8] =
    b"form = \"tf\"\nb = [\"1\"]\na = [\"1\", \"0.5\"]\naccumulator = 32\nlengths = [4]\n\
      inputs = [{ width = 16, bound = 100 }]\noutputs = [{ width = 16, error = \"3\" }]\n";

/// The words of a command on the files that it reads, the text that it puts and the files that it places.
#[derive(Clone, Copy)]
pub struct Job<'a> {
    pub words: &'a [&'a str],
    pub files: &'a [File<'a>],
    pub text: &'a [u8],
    pub placed: &'a [File<'a>],
}

pub const CHECK: Job<'static> = Job {
    words: &["fixif", "check", "f", "c", "k"],
    files: &[("f", HALF), ("c", HALF_CODE), ("k", HALF_CERT)],
    text: b"accepted\nerror 0 0.500000000\n",
    placed: &[],
};

pub const REPORT: Job<'static> = Job {
    words: &["fixif", "report", "f", "c", "k"],
    files: &[("f", HALF), ("c", HALF_CODE), ("k", HALF_CERT)],
    text: b"row 0 width 16 bound 51 shift 1 spare 32716\n\
      output 0 rounding 0.500000000 difference 0.000000000 rest 0.000000000 total 0.500000000 \
      target 1\naccepted\nerror 0 0.500000000\n",
    placed: &[],
};

pub const MAKE: Job<'static> = Job {
    words: &["fixif", "make", "f", "c", "k"],
    files: &[("f", POLE)],
    text: b"design 0 14 64\nerror 0 1.000000001\n",
    placed: &[("c", POLE_CODE), ("k", POLE_CERT)],
};

pub const SHOW: Job<'static> = Job {
    words: &["fixif", "show", "f"],
    files: &[("f", HALF)],
    text: b"form tf\nstructure df1\naccumulator 32\nword 32\ninput 0 width 16 low 0 bound 100\n\
      output 0 row 0 width 16 low 0 error 1\nrow 0: 0.5 u0 0\n",
    placed: &[],
};

pub const GAIN: Job<'static> = Job {
    words: &["fixif", "gain", "f"],
    files: &[("f", TURNING)],
    text: b"gain 0 0 187.500000000 200.000000000\nworst 0 0 -100 100 -100 100\n",
    placed: &[],
};

pub const SIMULATE: Job<'static> = Job {
    words: &["fixif", "simulate", "c", "s"],
    files: &[("c", POLE_ROW), ("s", SAMPLES)],
    text: b"100\n50\n25\n13\n",
    placed: &[],
};

/// It reads no file. Its words all are 0.
pub const LARGE: Job<'static> = Job {
    words: &["fixif", "large", "1"],
    files: &[],
    text: b"large 1\ndesign 8 24 256\nerror 0 0.511027118\nsamples 100000 least 0 greatest 0 sum 0\n",
    placed: &[],
};

/// Each of those that are quick.
pub const JOBS: [Job<'static>; 6] = [CHECK, REPORT, MAKE, SHOW, GAIN, SIMULATE];
