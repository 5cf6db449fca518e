//! The texts of some numbers, drawn by hand.

ghost use Rattle.std.specs.Prelude.{◌≤◌};

use demo_kernels::kernel_of;
use std::alloc::Global;
use std::test::Fail;

#[test]
fn gives_the_shift(rt: HostRuntime) -> Result<(), Fail> {
    let demo = kernel_of(rt.alloc(), 0)?;
    assert_eq!(rt;
        demo.source.as_slice(),
        b"#pragma balance range n 1 1000
void shift(int64_t n, uint64_t A[n]) {
  for (int64_t i = 0; i < n - 1; i++) {
    A[i + 1] = A[i] + 1ull;
  }
}
"
            .as_slice()
    );
    assert_eq!(rt;
        demo.inputs.as_slice(),
        b"n = 8
A = 1442695040888963407 1876011003808476466 11166244414315200793 7401132627792533940 7076646890315895283 10346034117385188870 1459328389850446429 6566661184467396264
"
            .as_slice()
    );
    assert_eq!(rt; demo.flip.as_slice(), b"flip A 1 0 at 2\n".as_slice());
    Ok(())
}

#[test]
fn gives_the_product(rt: HostRuntime) -> Result<(), Fail> {
    let demo = kernel_of(rt.alloc(), 1)?;
    assert_eq!(rt;
        demo.source.as_slice(),
        b"#pragma balance range n 1 500
void mm(int64_t n, const uint64_t A[n][n], const uint64_t B[n][n], uint64_t C[n][n]) {
  for (int64_t i = 0; i < n; i++) {
    for (int64_t j = 0; j < n; j++) {
      for (int64_t k = 0; k < n; k++) {
        C[i][j] += A[i][k] * B[k][j];
      }
    }
  }
}
"
            .as_slice()
    );
    let inputs = demo.inputs.as_slice();
    assert_eq!(rt; inputs.len(), 3931);
    assert!(rt; inputs.starts_with(b"n = 8\nA = 7806831264735756412 9396908728118811419 "));
    assert!(rt; inputs.ends_with(b" 8846919770277698170 2331237824956985025\n"));
    assert_eq!(rt; demo.flip.as_slice(), b"flip B 0 1 at 2\n".as_slice());
    Ok(())
}

#[test]
fn gives_the_stencil(rt: HostRuntime) -> Result<(), Fail> {
    let demo = kernel_of(rt.alloc(), 2)?;
    assert_eq!(rt;
        demo.source.as_slice(),
        b"#pragma balance range t 0 1000
#pragma balance range n 2 1000
void jac(int64_t t, int64_t n, uint64_t A[n], uint64_t B[n]) {
  for (int64_t s = 0; s < t; s++) {
    for (int64_t i = 1; i < n - 1; i++) {
      B[i] = A[i - 1] + A[i + 1];
    }
    for (int64_t i = 1; i < n - 1; i++) {
      A[i] = B[i];
    }
  }
}
"
            .as_slice()
    );
    assert_eq!(rt;
        demo.inputs.as_slice(),
        b"t = 8
n = 8
A = 14170967488582549417 16917806452429146372 12753995202142458627 6724033332004656598 3823451144950940141 8119572962061839096 530535223467497191 14293629500175999210
B = 3627712048155926641 17529986347606164524 15831530717057667339 13029342691234231614 9568825282464685877 9902074201467570336 10590742840031716719 5573501363854059218
"
            .as_slice()
    );
    assert_eq!(rt; demo.flip.as_slice(), b"flip A 2 2 at 1\n".as_slice());
    Ok(())
}

#[test]
fn gives_the_gather(rt: HostRuntime) -> Result<(), Fail> {
    let demo = kernel_of(rt.alloc(), 3)?;
    assert_eq!(rt;
        demo.source.as_slice(),
        b"#pragma balance range n 1 1000
#pragma balance range m 1 1000
void gather(int64_t n, int64_t m, const uint64_t P[n], const uint64_t X[m], uint64_t Y[n]) {
  for (int64_t i = 0; i < n; i++) {
    Y[i] = X[P[i]];
  }
}
"
            .as_slice()
    );
    assert_eq!(rt;
        demo.inputs.as_slice(),
        b"n = 8
m = 8
P = 6 5 0 7 2 1 4 3
X = 10211955533338721854 12952655938206184501 17906108326264568224 16175701042954945135 4681242023754186706 13955619279316412217 16688202270397885780 15760131196233180435
Y = 4559306894362948262 14149109876543242877 8155322449589351496 14550823295153924599 4254190577975110330 8127489338377521665 16766290046489985660 8967791270029391131
"
            .as_slice()
    );
    assert_eq!(rt; demo.flip.as_slice(), b"flip P 0 63 at 0\n".as_slice());
    Ok(())
}

fn has_flip(alloc: Global, number: u32, flip: &[u8]) -> Result<bool, Fail>
    requires { number ≤ 399 }
{
    Ok(kernel_of(alloc, number)?.flip.as_slice() == flip)
}

#[test]
fn takes_the_bit_of_a_number(rt: HostRuntime) -> Result<(), Fail> {
    assert!(rt; has_flip(rt.alloc(), 396, b"flip A 1 12 at 2\n")?);
    assert!(rt; has_flip(rt.alloc(), 397, b"flip B 0 13 at 2\n")?);
    assert!(rt; has_flip(rt.alloc(), 398, b"flip A 2 14 at 1\n")?);
    assert!(rt; has_flip(rt.alloc(), 399, b"flip P 0 63 at 0\n")?);
    Ok(())
}
