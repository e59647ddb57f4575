// No code: what the customer was promised, as theorems. The files are in proofs/.
